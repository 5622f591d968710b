//! The two drives and their strobe: time, disks and power; what the disk lines write to them and show of them.
#![tactic(auto)]

ghost use Rattle.std.specs.Prelude.{◌≡◌, true};
ghost use Rattle.disk_spec.specs.Drives.{fresh_drives, drives_ticks, drives_busy, drives_disk_moved, place_refused, drives_powered, drives_written, drives_after, drives_shown, accepted_drives, drive_at};

use disk_drive::{move_disk, write_register};
use disk_spec::{Drive, Drives, Watched};
use units::WaitTicks;

/// Both drives fresh, LSTRB off.
pub fn fresh() -> Drives
    ensures { result ≡ fresh_drives }
{
    Drives {
        internal: disk_drive::fresh(),
        external: disk_drive::fresh(),
        strobe: disk_strobe::off(),
    }
}

/// One of the drives.
fn drive_at(d: Drives, external: bool) -> Drive
    ensures { result ≡ drive_at external d }
{
    if external { d.external } else { d.internal }
}

/// Whether time changes them: a step is pending, or a strobe is steady.
#[tactic(auto, unfolding(disk_spec::specs::Drives::drives_busy))]
pub fn busy(d: Drives) -> bool
    ensures { result ≡ drives_busy d }
{
    (d.internal.pending != 0) | ((d.external.pending != 0) | d.strobe.steady)
}

/// The wait passes in both drives and in the strobe.
#[tactic(auto, unfolding(disk_spec::specs::Drives::drives_ticks))]
pub fn pass(drives: &mut Drives, wait: WaitTicks)
    ensures { drives.new ≡ drives_ticks wait.0 drives.old }
{
    drives.internal = disk_drive::wait(drives.internal, wait);
    drives.external = disk_drive::wait(drives.external, wait);
    drives.strobe = disk_strobe::wait(drives.strobe, wait);
}

/// The drives after a wait.
pub fn wait(mut drives: Drives, wait: WaitTicks) -> Drives
    ensures { result ≡ drives_ticks wait.0 drives }
{
    pass(&mut drives, wait);
    drives
}

/// DI: a disk comes or leaves. The four flags are those of `drives_disk_moved`: the item has all of them, always.
#[tactic(auto, unfolding(disk_spec::specs::Drives::drives_disk_moved))]
pub fn place(drives: Drives, external: bool, insert: bool, locked: bool, sides: bool) -> Drives
    ensures { result ≡ drives_disk_moved external insert locked sides drives }
{
    // Each drive in its own branch: by `with_drive_at` a DI costs 1.4 times as many instructions.
    let mut next = drives;
    if external {
        next.external = move_disk(drives.external, insert, locked, sides);
    } else {
        next.internal = move_disk(drives.internal, insert, locked, sides);
    }
    next
}

/// Whether DI gets refusal 8 here: an insertion where a disk is, or a removal where none is.
#[tactic(auto, unfolding(disk_spec::specs::Drives::place_refused))]
pub fn refuses_place(drives: Drives, external: bool, insert: bool) -> bool
    ensures { result ≡ place_refused external insert drives }
{
    insert == drive_at(drives, external).disk
}

/// PW: motors stop and pending steps are dropped.
#[tactic(auto, unfolding(disk_spec::specs::Drives::drives_powered))]
pub fn power_cut(drives: Drives) -> Drives
    ensures { result ≡ drives_powered drives }
{
    Drives {
        internal: disk_drive::power_cut(drives.internal),
        external: disk_drive::power_cut(drives.external),
        ..drives
    }
}

/// A write of the strobe acts: on the drive that SELECT names.
#[tactic(auto, unfolding(disk_spec::specs::Drives::with_drive_at))]
fn write(drives: &mut Drives, after: Watched)
    ensures { drives.new ≡ drives_written true after drives.old }
{
    let register = disk_strobe::register(after);
    if after.select {
        drives.external = write_register(drives.external, register, after.ca2);
    } else {
        drives.internal = write_register(drives.internal, register, after.ca2);
    }
}

/// The drives see the levels before an item and after it, whose wait and action are over. They are lent: to store all of them anew costs an item with LSTRB on half as much again.
#[inline(always)]
pub fn look(drives: &mut Drives, before: Watched, after: Watched)
    ensures { drives.new ≡ drives_after before after drives.old }
{
    // An item that leaves LSTRB off needs no more.
    if !(before.lstrb | after.lstrb) {
        drives.strobe = disk_strobe::off();
        return;
    }
    let strobe = disk_strobe::after(drives.strobe, before, after);
    if disk_strobe::writes(drives.strobe, before, after) {
        write(drives, after);
        drives.strobe = strobe;
    } else {
        drives.strobe = strobe;
    }
}

/// The drives after an item, whose wait and action are over, with these levels before and after it.
pub fn after(mut drives: Drives, before: Watched, after: Watched) -> Drives
    ensures { result ≡ drives_after before after drives }
{
    look(&mut drives, before, after);
    drives
}

/// The level of sense register `place % 16` of the selected drive, where SN gave it the level `stored`.
#[tactic(auto, unfolding(disk_spec::specs::Drives::drives_shown))]
pub fn shown(d: Drives, place: u8, stored: u8) -> u8
    ensures { result ≡ drives_shown place stored d }
{
    disk_sense::shown(drive_at(d, place / 16 == 1), place % 16, stored)
}

/// Whether both drives and the strobe are in their ranges, with these levels.
#[tactic(auto, unfolding(disk_spec::specs::Drives::accepted_drives))]
pub fn accepted(d: Drives, levels: Watched) -> bool
    ensures { result ≡ accepted_drives levels d }
{
    disk_sense::accepted(d.internal)
        & (disk_sense::accepted(d.external) & disk_strobe::accepted(d.strobe, levels))
}
