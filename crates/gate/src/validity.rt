// When a gate may be handed in (01, refusal 8).
ghost use Rattle.std.specs.Prelude.{◌≡◌};
ghost use Rattle.gate.specs.Validity.{sound_gate};

use crate::Gate;

impl Gate {
    // A sound timer, with TIN at its level.
    #[tactic(auto, unfolding(crate::specs::Validity::sound_gate))]
    pub fn sound(self) -> bool
        ensures { result ≡ sound_gate self }
    {
        self.timer.sound(self.c.tin())
    }
}
