//! Old captures turned over, once: request W-214. Types, the definitions (specs/) and their laws (proofs/). The code is in capture_record, capture_part and
//! capture.
#![tactic(auto)]

use refusal::Refusal;

/// The last levels that the SN items of a capture gave the registers of one drive that a DI is made from. Each is the byte of the record, 0 or 1.
#[derive(Clone, Copy, PartialEq, Eq)]
pub struct DriveLevels {
    /// Register 1: 0 with a disk.
    pub cstin: u8,
    /// Register 3: 0 where the disk is locked.
    pub wrtprt: u8,
    /// Register 12: 1 where double-sided.
    pub sides: u8,
}

/// What the conversion knows of the records before the one that it is at.
#[derive(Clone, Copy, PartialEq, Eq)]
pub struct Levels {
    /// IN line 0, the byte of the record, 0 or 1.
    pub line0: u8,
    pub internal: DriveLevels,
    pub external: DriveLevels,
}

/// What a conversion gives back.
#[derive(Clone, Copy, PartialEq, Eq)]
pub struct Converted {
    /// Refusal 1 where a cut record ended the work, 6 where the room is too little.
    pub refusal: Option<Refusal>,
    /// The bytes written.
    pub written: usize,
    /// The retired SN items replaced with no DI after them.
    pub count: usize,
}
