// What opens the gate: the timer, and port C whose PC2 may carry TIN (01, 'Timer'). Who counts openings follows this alone.
#![tactic(auto)]

mod clocking;
mod fresh;
mod pins;
mod registers;
mod validity;

use port_c::PortC;
use timer::Timer;

// The timer and port C.
#[derive(Clone, Copy)]
pub struct Gate {
    pub timer: Timer,
    pub c: PortC,
}
