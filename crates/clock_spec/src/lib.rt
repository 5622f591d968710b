//! The clock chip's commands, store and phases: types, what documents 01 and 02 say of them (specs/) and the laws of that (proofs/). The code is in
//! clock_command, clock_store and clock_phase; the chip itself and its step, with their definitions, are in clock.
#![tactic(auto)]

/// Which chip it is: the first, or W-206's later one with more cells.
#[derive(Clone, Copy, PartialEq, Eq)]
pub enum Chip {
    First,
    Later,
}

/// What a command names.
#[derive(Clone, Copy, PartialEq, Eq)]
pub enum Target {
    /// A seconds byte, 0 the lowest.
    Seconds(u8),
    Test,
    Protect,
    Cell(u8),
}

/// What a command byte asks.
#[derive(Clone, Copy, PartialEq, Eq)]
pub enum Command {
    Write(Target),
    Read(Target),
    /// The first of two command bytes: read or write, and the high three bits of the cell's number.
    Extended { read: bool, high: u8 },
    Illegal,
}

/// What the chip keeps. Cells past those that the chip has are room not in use.
#[derive(Clone, Copy)]
pub struct Store {
    pub chip: Chip,
    pub cells: [u8; 256],
    pub seconds: u32,
    pub protect: bool,
    pub test: u8,
}

/// The whole bytes of a transaction, in their order.
// No Option: there are three states, and `hear`, `with_byte` and the theorems on them go by these; an array with a length is no plainer, as two bytes are the most.
#[derive(Clone, Copy, PartialEq, Eq)]
pub enum Bytes {
    Nothing,
    One(u8),
    Two(u8, u8),
}

/// What the whole bytes of a transaction come to at the last bit of one.
#[derive(Clone, Copy, PartialEq, Eq)]
pub enum Verdict {
    /// Another byte follows.
    More,
    /// A legal read is whole.
    Reads(Target),
    /// A legal write is complete: its byte is the newest.
    Writes(Target),
    /// Anything else.
    Ignored,
}

/// Where a transaction stands.
#[derive(Clone, Copy, PartialEq, Eq)]
pub enum Phase {
    /// Enable is 1.
    Idle,
    /// Whole bytes that another one follows; bits taken of that one, 0 to 7, and their value.
    Listening { bytes: Bytes, count: u8, bits: u8 },
    /// The byte of a legal read and the falls seen, 0 to 8.
    Sending { byte: u8, falls: u8 },
    /// Until enable goes up.
    Ignoring,
}

/// What the wires do between two items.
#[derive(Clone, Copy, PartialEq, Eq)]
pub enum Edge {
    /// Enable is 1 after.
    Up,
    /// Enable falls.
    Starts,
    /// Neither a rise nor a fall of data-clock.
    Still,
    Fall,
    /// Data-clock 0 to 1, with the data level.
    Rise(bool),
}

/// The levels of the three wires; true is 1. Enable is low active.
#[derive(Clone, Copy, PartialEq, Eq)]
pub struct Wires {
    pub enable: bool,
    pub dataclock: bool,
    pub dataline: bool,
}
