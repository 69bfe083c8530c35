// Plays an event list on a device (01, 'The event list').
#![tactic(auto)]

mod ahead;
mod playing;
mod running;
mod storing;

pub use playing::{Played, Totals, play};
