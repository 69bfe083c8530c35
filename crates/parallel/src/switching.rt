// Writes of PGCR, PSRR, PIVR, PACR, PBCR and PSR (01, 'Registers', 'Mode 0').
ghost use Rattle.std.specs.Prelude.{◌≡◌};
ghost use Rattle.parallel.specs.Switching.{write_pgcr, write_psrr, write_pivr, write_control, write_psr};

use crate::Parallel;
use port::Pair;

impl Parallel {
    // PGCR. Apart from its callers, so that a write of another register doesn't pay for it.
    #[tactic(auto, unfolding(crate::specs::Switching::write_pgcr))]
    #[inline(never)]
    pub fn write_pgcr(mut self, v: u8) -> Parallel
        ensures { result ≡ write_pgcr self v }
    {
        self.h12 = self.h12.pgcr_written(Pair::H12, self.pgcr, v);
        self.h34 = self.h34.pgcr_written(Pair::H34, self.pgcr, v);
        self.pgcr = v;
        self
    }

    // PSRR keeps the bits that it has.
    #[tactic(auto, unfolding(crate::specs::Switching::write_psrr))]
    pub fn write_psrr(mut self, v: u8) -> Parallel
        ensures { result ≡ write_psrr self v }
    {
        self.psrr = v & Parallel::PSRR_BITS;
        self
    }

    // PIVR stores the upper six bits and clears the lower two.
    #[tactic(auto, unfolding(crate::specs::Switching::write_pivr))]
    pub fn write_pivr(mut self, v: u8) -> Parallel
        ensures { result ≡ write_pivr self v }
    {
        self.pivr = v & Parallel::PIVR_BITS;
        self
    }

    // PACR or PBCR, apart from its callers for the same reason.
    #[tactic(auto, unfolding(crate::specs::Switching::write_control))]
    #[inline(never)]
    pub fn write_control(self, pair: Pair, v: u8) -> Parallel
        ensures { result ≡ write_control self pair v }
    {
        self.with_link(pair, self.link(pair).control_written(pair, self.pgcr, v))
    }

    // Ones written to PSR clear edge flags.
    #[tactic(auto, unfolding(crate::specs::Switching::write_psr))]
    pub fn write_psr(mut self, v: u8) -> Parallel
        ensures { result ≡ write_psr self v }
    {
        self.h12 = self.h12.flags_cleared(bits::bit(v, 0), bits::bit(v, 1));
        self.h34 = self.h34.flags_cleared(bits::bit(v, 2), bits::bit(v, 3));
        self
    }
}
