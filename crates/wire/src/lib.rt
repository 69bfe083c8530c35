// The list format, free of the device that a list is played on (01, 'The event list').
#![tactic(auto)]

mod events;
mod field;
mod next;
mod refusal;
mod word;

pub use events::Events;
pub use next::{MOST_BYTES, next_event, size_of};
pub use refusal::{Refusal, Refused};
pub use word::{AFTER_KIND, END, event_of, word_at};
