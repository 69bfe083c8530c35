// When ports and pairs may be handed in (01, refusal 8).
ghost use Rattle.std.specs.Prelude.{◌≡◌};
ghost use Rattle.parallel.specs.Validity.{sound_of};

use crate::Parallel;
use port::Pair;

impl Parallel {
    // PSRR's unused bit clear, PIVR without a lower bit set other than 0F, and sound pairs.
    #[tactic(auto, unfolding(crate::specs::Validity::sound_of))]
    pub fn sound(self) -> bool
        ensures { result ≡ sound_of self }
    {
        !bits::bit(self.psrr, 7)
            & ((self.pivr & 3 == 0) | (self.pivr == Parallel::VECTOR))
            & self.h12.sound(self.rules(Pair::H12))
            & self.h34.sound(self.rules(Pair::H34))
    }
}
