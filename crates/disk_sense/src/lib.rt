//! What a drive's sense registers show, and whether a drive is in its ranges. A sense register is a number here, as SN's items name it and as
//! `DiskLines::sense_at` works it out.
#![tactic(auto)]

ghost use Rattle.std.specs.Prelude.{◌≡◌, false};
ghost use Rattle.disk_spec.specs.Sense.{level, is_drive_sense, drive_sense, sense_shown, accepted_drive};

use disk_spec::{Drive, LAST_TRACK, STEP_TICKS};

/// Whether a sense register comes from the drive, and not from SN.
// `item_ranged::is_retired` says the same of SN's items: the families disk and item use nothing of one another, and each has its definition and samples.
#[tactic(auto, unfolding(disk_spec::specs::Sense::is_drive_sense))]
pub fn drives_sense(register: u8) -> bool
    ensures { result ≡ is_drive_sense register }
{
    matches!(register, 0..=5 | 12 | 15)
}

/// Whether one of the drive's sense registers is at level 1.
#[tactic(auto, unfolding(disk_spec::specs::Sense::drive_sense))]
fn senses(d: Drive, register: u8) -> bool
    ensures { level result ≡ drive_sense register d }
{
    match register {
        0 => d.direction,
        1 => !d.disk,
        2 => d.pending == 0,
        3 => !d.locked,
        4 => !d.motor,
        5 => d.track != 0,
        12 => d.sides,
        _ => false,
    }
}

/// The level of one of the drive's sense registers.
pub fn sense(d: Drive, register: u8) -> u8
    ensures { result ≡ drive_sense register d }
{
    senses(d, register) as u8
}

/// The level of any sense register; `stored` is the level that SN gave it.
#[tactic(auto, unfolding(disk_spec::specs::Sense::sense_shown))]
pub fn shown(d: Drive, register: u8, stored: u8) -> u8
    ensures { result ≡ sense_shown register stored d }
{
    if drives_sense(register) {
        sense(d, register)
    } else {
        stored
    }
}

/// Whether every field is in its range: the motor on and the disk locked only with a disk, a step's own direction only with a step pending.
#[tactic(auto, unfolding(disk_spec::specs::Sense::accepted_drive))]
pub fn accepted(d: Drive) -> bool
    ensures { result ≡ accepted_drive d }
{
    (d.track <= LAST_TRACK)
        & ((d.pending <= STEP_TICKS)
            & ((!d.motor | d.disk) & ((!d.locked | d.disk) & (!d.heading | (d.pending != 0)))))
}
