// Clocks of both pairs (01, 'Mode 0').
ghost use Rattle.std.specs.Prelude.{◌≡◌};
ghost use Rattle.parallel.specs.Clocking.{clocked_parallel, clocks_of};

use crate::Parallel;
use port::Pair;

impl Parallel {
    // One clock.
    #[tactic(auto, unfolding(crate::specs::Clocking::clocked_parallel, crate::specs::Parts::rules_at, crate::specs::Parts::link_of))]
    pub fn clock(mut self) -> Parallel
        ensures { result ≡ clocked_parallel self }
    {
        self.h12 = self.h12.clocked(self.rules(Pair::H12));
        self.h34 = self.h34.clocked(self.rules(Pair::H34));
        self
    }

    // n clocks at once. Where neither handshake waits or pulses they change nothing.
    #[tactic(auto, using(port::specs::ManyClocks::untimed_stays), unfolding(crate::specs::Clocking::clocks_of, crate::specs::Parts::rules_at, crate::specs::Parts::link_of))]
    #[inline(always)]
    pub fn clocks(mut self, n: u32) -> Parallel
        ensures { result ≡ clocks_of n self }
    {
        if self.h12.untimed() & self.h34.untimed() {
            return self;
        }
        self.h12 = self.h12.clocks(self.rules(Pair::H12), n);
        self.h34 = self.h34.clocks(self.rules(Pair::H34), n);
        self
    }
}
