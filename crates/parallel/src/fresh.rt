// Fresh ports and pairs, and reset (01, 'A fresh device').
ghost use Rattle.std.specs.Prelude.{◌≡◌};
ghost use Rattle.parallel.specs.Fresh.{fresh_parallel, reset_of};

use crate::Parallel;
use port::{Link, Port};

impl Parallel {
    // Every register zero, except PIVR 0F.
    #[tactic(auto, unfolding(crate::specs::Fresh::fresh_parallel))]
    pub fn fresh() -> Parallel
        ensures { result ≡ fresh_parallel }
    {
        Parallel {
            pgcr: 0,
            psrr: 0,
            pivr: Parallel::VECTOR,
            a: Port::fresh(),
            b: Port::fresh(),
            h12: Link::fresh(),
            h34: Link::fresh(),
        }
    }

    // Data latches, the last byte read and outside levels are kept.
    #[tactic(auto, unfolding(crate::specs::Fresh::reset_of))]
    pub fn reset(mut self) -> Parallel
        ensures { result ≡ reset_of self }
    {
        self.pgcr = 0;
        self.psrr = 0;
        self.pivr = Parallel::VECTOR;
        self.a = self.a.reset();
        self.b = self.b.reset();
        self.h12 = self.h12.reset();
        self.h34 = self.h34.reset();
        self
    }
}
