//! One drive: disk in and out, power, its wait, and what is written to its registers. Time is in VIA ticks.
#![tactic(auto)]

ghost use Rattle.std.specs.Prelude.{◌≡◌, true, false, ◌<◌};
ghost use Rattle.disk_spec.specs.Drive.{fresh_drive, with_disk_in, with_disk_out, neighbour, drive_ticks, after_power_cut};
ghost use Rattle.disk_spec.specs.Control.{disk_moved, register_written};

use disk_spec::{DIRECTION, Drive, EJECT, LAST_TRACK, MOTOR, STEP, STEP_TICKS};
use units::WaitTicks;

/// The track that a step from `track` ends at: past either end it stays there.
#[tactic(auto, unfolding(disk_spec::specs::Drive::neighbour))]
fn neighbour_of(heading: bool, track: u8) -> u8
    ensures { result ≡ neighbour heading track }
{
    if heading {
        track.saturating_sub(1)
    } else if track < LAST_TRACK {
        track + 1
    } else {
        LAST_TRACK
    }
}

/// A fresh drive: track 0, no disk, single-sided, at rest.
pub fn fresh() -> Drive
    ensures { result ≡ fresh_drive }
{
    Drive {
        track: 0,
        direction: false,
        disk: false,
        locked: false,
        sides: false,
        motor: false,
        pending: 0,
        heading: false,
    }
}

/// A disk comes: DI with insert 1.
pub fn insert(drive: Drive, locked: bool, sides: bool) -> Drive
    ensures { result ≡ with_disk_in locked sides drive }
{
    Drive {
        disk: true,
        locked,
        sides,
        ..drive
    }
}

/// The disk leaves: DI with insert 0, and an eject. The drive keeps its sides.
pub fn remove(drive: Drive) -> Drive
    ensures { result ≡ with_disk_out drive }
{
    Drive {
        disk: false,
        locked: false,
        motor: false, // stops without a disk
        ..drive
    }
}

/// The drive after a wait, worked out from its VIA ticks.
pub fn wait(drive: Drive, wait: WaitTicks) -> Drive
    ensures { result ≡ drive_ticks wait.0 drive }
{
    let ticks = wait.ticks();
    if drive.pending == 0 {
        drive
    } else if ticks < drive.pending {
        Drive {
            pending: drive.pending - ticks,
            ..drive
        }
    } else {
        Drive {
            track: neighbour_of(drive.heading, drive.track),
            pending: 0,
            heading: false,
            ..drive
        }
    }
}

/// PW: the motor stops and a pending step is dropped.
pub fn power_cut(drive: Drive) -> Drive
    ensures { result ≡ after_power_cut drive }
{
    Drive {
        motor: false, // stopped
        pending: 0, // no step
        heading: false,
        ..drive
    }
}

/// DI: a disk comes or leaves.
pub fn move_disk(d: Drive, comes: bool, locked: bool, sides: bool) -> Drive
    ensures { result ≡ disk_moved comes locked sides d }
{
    if comes {
        insert(d, locked, sides)
    } else {
        remove(d)
    }
}

/// A write that acts. A register past 3 does nothing.
#[tactic(auto, unfolding(disk_spec::specs::Control::register_written))]
pub fn write_register(d: Drive, register: u8, value: bool) -> Drive
    ensures { result ≡ register_written register value d }
{
    match register {
        DIRECTION => Drive {
            direction: value,
            ..d
        },
        STEP if !value && d.pending == 0 => Drive {
            pending: STEP_TICKS,
            heading: d.direction,
            ..d
        },
        MOTOR => Drive {
            motor: !value & (d.disk | d.motor),
            ..d
        },
        EJECT if value && d.disk => remove(d),
        _ => d,
    }
}
