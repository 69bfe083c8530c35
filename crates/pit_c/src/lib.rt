// The face to C: bytes in, bytes out (include/pit.h).
#![tactic(auto)]

pub mod calls;
mod layout;
pub mod playing;
