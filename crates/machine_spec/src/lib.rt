//! The machine: its types, what an item does to it (specs/) and the laws of that (proofs/). The code is in the other crates
//! of the family.
#![tactic(auto)]

use clock::Clock;
use disk_lines::DiskLines;
use disk_spec::Drives;
use via::Via;

/// The whole state.
#[derive(Clone, Copy)]
pub struct Machine {
    pub via: Via,
    pub clock: Clock,
    pub disk: DiskLines,
    /// IN lines 0 to 6: mouse switch, X2, Y2, H4, port A's bit 7, the serial chip asking, the programmer's switch.
    pub inputs: [u8; 7],
    /// Sense registers 0 to 15 of the internal drive, then of the external one.
    pub sense: [u8; 32],
    /// The two drives behind the disk lines, and their strobe.
    pub drives: Drives,
}

/// What an item leaves: the next state and the value read.
#[derive(Clone, Copy)]
pub struct Did {
    pub machine: Machine,
    pub value: u8,
}
