// Levels that come to the pins of port C, none of which opens the gate (01, 'Registers', 'Timer'; 02, R-2).
ghost use Rattle.std.specs.Prelude.{◌≡◌};
ghost use Rattle.gate.specs.Pins.{tin_event, line_event, gate_pinned};

use crate::Gate;
use event::map;
use port_c::PortC;

impl Gate {
    // A level comes to PC2, where TIN may be.
    #[tactic(auto, unfolding(crate::specs::Pins::tin_event))]
    fn tin_event(mut self, level: bool) -> Gate
        ensures { result ≡ tin_event self level }
    {
        self.timer = self.timer.tin(self.c.tin(), level);
        self.c.outside = bits::with_bit(self.c.outside, PortC::TIN, level);
        self
    }

    // A level comes to line n of port C.
    #[tactic(auto, unfolding(crate::specs::Pins::line_event))]
    pub fn line(mut self, n: u8, level: bool) -> Gate
        ensures { result ≡ line_event self n level }
    {
        if n == PortC::TIN {
            return self.tin_event(level);
        }
        self.c.outside = bits::with_bit(self.c.outside, n, level);
        self
    }

    // A level comes to any pin, as far as it concerns the gate.
    #[tactic(auto, unfolding(crate::specs::Pins::gate_pinned))]
    pub fn pin(self, pin: u8, level: bool) -> Gate
        ensures { result ≡ gate_pinned self pin level }
    {
        match pin {
            map::PC0..=map::PC7 => self.line(pin - map::PC0, level),
            _ => self,
        }
    }
}
