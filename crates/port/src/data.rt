// What a data read and a data write do to the pair whose elements they move (01, 'Mode 0').
ghost use Rattle.std.specs.Prelude.{◌≡◌};
ghost use Rattle.port.specs.Data.{counted_of, read_count, written_count, read_of, written_of};

use crate::moving::{filled_count, removed_count};
use crate::{Link, Rules, Way};

impl Way {
    // The count after a data read.
    #[tactic(auto, unfolding(crate::specs::Data::read_count))]
    fn read_count(self, held: u8) -> u8
        ensures { result ≡ read_count self held }
    {
        match self {
            Way::Input => removed_count(held),
            Way::Output | Way::Direct => held,
        }
    }

    // The count after a data write.
    #[tactic(auto, unfolding(crate::specs::Data::written_count))]
    fn written_count(self, enabled: bool, held: u8) -> u8
        ensures { result ≡ written_count self enabled held }
    {
        match self {
            Way::Output if enabled => filled_count(held),
            _ => held,
        }
    }
}

impl Link {
    // Another count; where that makes the pair ready, readiness begins.
    #[tactic(auto, unfolding(crate::specs::Data::counted_of))]
    fn counted(mut self, rules: Rules, held: u8) -> Link
        ensures { result ≡ counted_of self rules held }
    {
        let was = rules.ready(self.held);
        let is = rules.ready(held);
        self.held = held;
        if !was & is {
            self.strobe = self.strobe.readied(rules);
        }
        self
    }

    // A data read.
    #[tactic(auto, unfolding(crate::specs::Data::read_count, crate::specs::Data::counted_of))]
    pub fn read(self, rules: Rules) -> Link
        ensures { result ≡ read_of self rules }
    {
        self.counted(rules, rules.way.read_count(self.held))
    }

    // A data write.
    #[tactic(auto, unfolding(crate::specs::Data::written_count, crate::specs::Data::counted_of))]
    pub fn written(self, rules: Rules) -> Link
        ensures { result ≡ written_of self rules }
    {
        self.counted(rules, rules.way.written_count(rules.enabled, self.held))
    }
}
