//! The drives behind the disk lines and their strobe: types, what request W-203 says of them (specs/) and the laws of that (proofs/). The code is in
//! disk_drive, disk_sense, disk_strobe and disk_drives; the lines themselves are in disk_lines. Time is in VIA ticks.
#![tactic(auto)]

/// How long a step takes, in VIA ticks: 12 ms, rounded up.
pub const STEP_TICKS: u16 = 9401;

/// The longest strobe that writes to a register but eject, in VIA ticks.
pub const WRITE_TICKS: u32 = 783;

/// The shortest strobe that ejects, in VIA ticks. A strobe's count stops there.
pub const EJECT_TICKS: u32 = 391680;

/// The last track of a drive; the first is 0.
pub const LAST_TRACK: u8 = 79;

/// The levels that a strobe goes by: SEL is the VIA's line, the others are the disk lines.
#[derive(Clone, Copy, PartialEq, Eq)]
pub struct Watched {
    pub lstrb: bool,
    pub enable: bool,
    pub ca0: bool,
    pub ca1: bool,
    pub ca2: bool,
    pub sel: bool,
    pub select: bool,
}

// The registers of a drive that can be written, as CA1 and CA0 address them. Numbers and no enum: `disk_drive::write_register` takes any, and does nothing at
// one that no strobe names (`register_written`).

pub const DIRECTION: u8 = 0;

pub const STEP: u8 = 1;

pub const MOTOR: u8 = 2;

pub const EJECT: u8 = 3;

/// One drive. An image holds all of these fields, so that `accepted_drive` judges them: a step that is not pending and yet has a direction
/// could not be refused if the step were an `Option`.
#[derive(Clone, Copy)]
pub struct Drive {
    /// 0 to 79.
    pub track: u8,
    /// As set: false is 0, towards track 79; true is 1, towards track 0.
    pub direction: bool,
    /// A disk is in place.
    pub disk: bool,
    pub locked: bool,
    /// Double-sided.
    pub sides: bool,
    /// Running.
    pub motor: bool,
    /// VIA ticks left of a pending step, 1 to 9,401; 0: no step.
    pub pending: u16,
    /// That step's own direction; false with no step.
    pub heading: bool,
}

/// The strobe LSTRB. As with a drive, `accepted_strobe` judges both fields.
#[derive(Clone, Copy)]
pub struct Strobe {
    /// VIA ticks since LSTRB rose, at most 391,680; 0 while LSTRB is off or the strobe is spoilt.
    pub ticks: u32,
    /// ENABLE stayed on and the other levels held still since.
    pub steady: bool,
}

/// The two drives and the strobe that writes to them.
#[derive(Clone, Copy)]
pub struct Drives {
    pub internal: Drive,
    pub external: Drive,
    pub strobe: Strobe,
}
