// The register map and the pins (01, 'Registers', 'The event list'; 001): each number under the name that it has in document 000.
// Numbers and no enum: each byte is some register's or pin's number and has an answer, and 01 asks for one decision over them, with ranges.

// Ports A, B and C: general control, service request, directions, port interrupt vector, controls, data, alternates, status.
pub const PGCR: u8 = 0;

pub const PSRR: u8 = 1;

pub const PADDR: u8 = 2;

pub const PBDDR: u8 = 3;

pub const PCDDR: u8 = 4;

pub const PIVR: u8 = 5;

pub const PACR: u8 = 6;

pub const PBCR: u8 = 7;

pub const PADR: u8 = 8;

pub const PBDR: u8 = 9;

pub const PAAR: u8 = 10;

pub const PBAR: u8 = 11;

pub const PCDR: u8 = 12;

pub const PSR: u8 = 13;

// The timer: control, interrupt vector, preload and count from their high to their low byte, status.
pub const TCR: u8 = 16;

pub const TIVR: u8 = 17;

pub const CPRH: u8 = 19;

pub const CPRL: u8 = 21;

pub const CNTRH: u8 = 23;

pub const CNTRL: u8 = 25;

pub const TSR: u8 = 26;

// The first and the last pin of each port, and the handshake pins.
pub const PA0: u8 = 0;

pub const PA7: u8 = 7;

pub const PB0: u8 = 8;

pub const PB7: u8 = 15;

pub const PC0: u8 = 16;

pub const PC7: u8 = 23;

pub const H1: u8 = 24;

pub const H2: u8 = 25;

pub const H3: u8 = 26;

pub const H4: u8 = 27;
