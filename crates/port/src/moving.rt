// The two-place buffer (01, 'Mode 0', submodes 00 and 01): its step on one port's cells, under the count of the pair that moves them,
// and the step of the count.
ghost use Rattle.std.specs.Prelude.{◌≡◌};
ghost use Rattle.port.specs.Buffering.{stored_count, removed_count, filled_count};
ghost use Rattle.port.specs.Moving.{stored_of, removed_of, oldest_of, filled_of, taken_of, shifted_of, moved_of, moved_count, drawn_of, put_of};

use crate::{Cells, Way};

// The count after an input element is stored.
#[tactic(auto, unfolding(crate::specs::Buffering::stored_count))]
fn stored_count(held: u8) -> u8
    ensures { result ≡ stored_count held }
{
    if held == 0 { 1 } else { 2 }
}

// The count after one is removed by a read, or taken by an edge.
#[tactic(auto, unfolding(crate::specs::Buffering::removed_count))]
pub(crate) fn removed_count(held: u8) -> u8
    ensures { result ≡ removed_count held }
{
    held.saturating_sub(1)
}

// The count after an output element is written.
#[tactic(auto, unfolding(crate::specs::Buffering::filled_count))]
pub(crate) fn filled_count(held: u8) -> u8
    ensures { result ≡ filled_count held }
{
    match held {
        0 => 1,
        1 => 2,
        _ => held,
    }
}

impl Way {
    // The count after an accepted edge.
    #[tactic(auto, unfolding(crate::specs::Moving::moved_count))]
    pub(crate) fn moved_count(self, held: u8) -> u8
        ensures { result ≡ moved_count self held }
    {
        match self {
            Way::Input => stored_count(held),
            Way::Output => removed_count(held),
            Way::Direct => held,
        }
    }
}

impl Cells {
    // An input element goes into the first free place.
    #[tactic(auto, unfolding(crate::specs::Moving::stored_of))]
    fn stored(mut self, held: u8, element: u8) -> Cells
        ensures { result ≡ stored_of held self element }
    {
        if held == 0 {
            self.first = element;
        } else {
            self.second = element;
        }
        self
    }

    // The oldest input element is removed, and is the last one read.
    #[tactic(auto, unfolding(crate::specs::Moving::removed_of))]
    fn removed(mut self, held: u8) -> Cells
        ensures { result ≡ removed_of held self }
    {
        if held != 0 {
            self.last = self.first;
            self.first = self.second;
        }
        self
    }

    // The oldest input element; the last one read when empty.
    #[tactic(auto, unfolding(crate::specs::Moving::oldest_of))]
    pub fn oldest(self, held: u8) -> u8
        ensures { result ≡ oldest_of held self }
    {
        if held == 0 { self.last } else { self.first }
    }

    // An output element fills the final latch if empty, else the initial, else is dropped.
    #[tactic(auto, unfolding(crate::specs::Moving::filled_of))]
    fn filled(mut self, held: u8, element: u8) -> Cells
        ensures { result ≡ filled_of held self element }
    {
        match held {
            0 => self.latch = element,
            1 => self.initial = element,
            _ => {}
        }
        self
    }

    // The final latch is emptied, and the initial moves up.
    #[tactic(auto, unfolding(crate::specs::Moving::taken_of))]
    fn taken(mut self, held: u8) -> Cells
        ensures { result ≡ taken_of held self }
    {
        if held > 1 {
            self.latch = self.initial;
        }
        self
    }

    // What an accepted edge does to these cells.
    #[tactic(auto, unfolding(crate::specs::Moving::shifted_of))]
    fn shifted(self, way: Way, held: u8, pins: u8) -> Cells
        ensures { result ≡ shifted_of way held self pins }
    {
        match way {
            Way::Input => self.stored(held, pins),
            Way::Output => self.taken(held),
            Way::Direct => self,
        }
    }

    // The same, where the pair moves them.
    #[tactic(auto, unfolding(crate::specs::Moving::moved_of))]
    pub fn moved(self, on: bool, way: Way, held: u8, pins: u8) -> Cells
        ensures { result ≡ moved_of on way held self pins }
    {
        if on {
            self.shifted(way, held, pins)
        } else {
            self
        }
    }

    // What a read does to these cells, where the pair moves them.
    #[tactic(auto, unfolding(crate::specs::Moving::drawn_of))]
    pub fn drawn(self, on: bool, held: u8) -> Cells
        ensures { result ≡ drawn_of on held self }
    {
        if on { self.removed(held) } else { self }
    }

    // What a written output element does to these cells, where the pair moves them.
    #[tactic(auto, unfolding(crate::specs::Moving::put_of))]
    pub fn put(mut self, on: bool, enabled: bool, held: u8, element: u8) -> Cells
        ensures { result ≡ put_of on enabled held self element }
    {
        if on & enabled {
            return self.filled(held, element);
        }
        if on {
            self.latch = element;
        }
        self
    }
}
