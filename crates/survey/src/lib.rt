// What a list asks for, found before it is played (01, 'The event list'): its refusal or its needs by itself, and its openings on a device.
#![tactic(auto)]

mod checking;
mod counting;
mod watching;

pub use checking::check;
pub use counting::count_openings;
