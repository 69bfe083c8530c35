// Writes of the registers that the gate has (01, 'Registers', 'Timer').
ghost use Rattle.std.specs.Prelude.{◌≡◌};
ghost use Rattle.gate.specs.Registers.{write_tcr, write_preload, write_tsr, gate_written};

use crate::Gate;
use event::map;

impl Gate {
    #[tactic(auto, unfolding(crate::specs::Registers::write_tcr))]
    pub fn write_tcr(mut self, v: u8) -> Gate
        ensures { result ≡ write_tcr self v }
    {
        self.timer = self.timer.controlled(v, self.c.tin());
        self
    }

    // A byte of the preload, 0 its high one: a number, as in `byte_of`.
    #[tactic(auto, unfolding(crate::specs::Registers::write_preload))]
    pub fn write_preload(mut self, place: u8, v: u8) -> Gate
        ensures { result ≡ write_preload self place v }
    {
        self.timer = self.timer.preloaded(place, v);
        self
    }

    #[tactic(auto, unfolding(crate::specs::Registers::write_tsr))]
    pub fn write_tsr(mut self, v: u8) -> Gate
        ensures { result ≡ write_tsr self v }
    {
        self.timer = self.timer.cleared(v);
        self
    }

    // A write of any register, as far as it concerns the gate.
    #[tactic(auto, unfolding(crate::specs::Registers::gate_written))]
    pub fn write(mut self, register: u8, v: u8) -> Gate
        ensures { result ≡ gate_written self register v }
    {
        match register {
            map::PCDDR => self.c.direction = v,
            map::PCDR => self.c.latch = v,
            map::TCR => return self.write_tcr(v),
            map::TIVR => self.timer.tivr = v,
            map::CPRH..=map::CPRL => return self.write_preload(register - map::CPRH, v),
            map::TSR => return self.write_tsr(v),
            _ => {}
        }
        self
    }
}
