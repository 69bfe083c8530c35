// Clocks of a pair (01, 'Mode 0').
ghost use Rattle.std.specs.Prelude.{◌≡◌};
ghost use Rattle.port.specs.Clocking.{clocked_link, untimed_of, clocks_of};

use crate::{Link, Rules};

impl Link {
    // One clock.
    #[tactic(auto, unfolding(crate::specs::Handshaking::clocked_strobe))]
    pub fn clocked(mut self, rules: Rules) -> Link
        ensures { result ≡ clocked_link self rules }
    {
        self.strobe = self.strobe.clocked(rules.handshake);
        self
    }

    // Neither a wait nor a pulse runs: clocks change nothing.
    #[tactic(auto, unfolding(crate::specs::Clocking::untimed_of))]
    pub fn untimed(self) -> bool
        ensures { result ≡ untimed_of self }
    {
        (self.strobe.wait == 0) & (self.strobe.pulse == 0)
    }

    // n clocks at once.
    #[tactic(auto, unfolding(crate::specs::Handshaking::strobe_after))]
    pub fn clocks(mut self, rules: Rules, n: u32) -> Link
        ensures { result ≡ clocks_of n self rules }
    {
        self.strobe = self.strobe.clocks(rules.handshake, n);
        self
    }
}
