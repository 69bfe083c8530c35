// Ports A and B with their handshake pairs, and the port interrupts (01, 'Registers', 'Mode 0', 'Interrupts'): their state here, the
// rules in the modules.
#![tactic(auto)]

pub mod clocking;
pub mod data;
pub mod fresh;
pub mod interrupts;
pub mod parts;
pub mod pins;
pub mod switching;
pub mod validity;

use port::{Link, Port};

// The registers that concern both ports, the ports and the pairs.
#[derive(Clone, Copy)]
pub struct Parallel {
    pub pgcr: u8,
    pub psrr: u8,
    pub pivr: u8,
    pub a: Port,
    pub b: Port,
    pub h12: Link,
    pub h34: Link,
}

impl Parallel {
    // PIVR as reset leaves it.
    pub const VECTOR: u8 = interrupt::RESET_VECTOR;

    // The bits that PSRR has; bit 7 is unused.
    pub const PSRR_BITS: u8 = 0x7f;

    // The bits that a write of PIVR stores.
    pub const PIVR_BITS: u8 = 0xfc;
}
