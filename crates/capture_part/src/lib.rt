//! What is written for one record of an old capture, and whether it is counted.
#![tactic(auto)]

ghost use Rattle.std.specs.Prelude.{◌≡◌, ◌++◌, ◌+◌, ◌≤◌, length};
ghost use Rattle.octets.specs.Octets.{put_at};
ghost use Rattle.capture_spec.specs.Convert.{insert_of, locked_of, sides_of, line_for, disk_for, changes_of, part_of, lone_of};

use capture_spec::{DriveLevels, Levels};

/// What a DI says for a level of register 1: 1 where it puts a disk in.
#[tactic(auto, unfolding(capture_spec::specs::Convert::insert_of))]
fn insert(level: u8) -> u8
    ensures { result ≡ insert_of level }
{
    u8::from(level == 0)
}

/// 1 where the disk put in is locked.
#[tactic(auto, unfolding(capture_spec::specs::Convert::locked_of))]
fn locked(levels: DriveLevels, level: u8) -> u8
    ensures { result ≡ locked_of levels level }
{
    u8::from(level == 0 && levels.wrtprt == 0)
}

/// 1 where the disk put in is double-sided.
#[tactic(auto, unfolding(capture_spec::specs::Convert::sides_of))]
fn sides(levels: DriveLevels, level: u8) -> u8
    ensures { result ≡ sides_of levels level }
{
    if level == 0 { levels.sides } else { 0 }
}

/// The IN for a retired SN.
#[tactic(auto, unfolding(capture_spec::specs::Convert::line_for))]
fn line(levels: Levels, sense: &[u8; 9]) -> [u8; 8]
    ensures { result ≡ line_for levels sense.now }
{
    [6, 0, b'I', b'N', sense[4], sense[5], 0, levels.line0]
}

/// The DI after it.
#[tactic(auto, unfolding(capture_spec::specs::Convert::disk_for))]
fn disk(levels: Levels, sense: &[u8; 9]) -> [u8; 10]
    ensures { result ≡ disk_for levels sense.now }
{
    let drive = sense[6];
    let level = sense[8];
    let known = capture_record::drive(levels, drive);
    [
        8,
        0,
        b'D',
        b'I',
        0,
        0,
        drive,
        insert(level),
        locked(known, level),
        sides(known, level),
    ]
}

/// Whether an SN changes whether a disk is present.
#[tactic(auto, unfolding(capture_spec::specs::Convert::changes_of))]
fn changes(levels: Levels, sense: &[u8; 9]) -> bool
    ensures { result ≡ changes_of levels sense.now }
{
    sense[7] == 1 && sense[8] != capture_record::drive(levels, sense[6]).cstin
}

/// The number of bytes written for a record.
pub fn size(levels: Levels, row: &[u8]) -> usize
    ensures { result ≡ length (part_of levels row.now) }
{
    match capture_record::retired(row) {
        Some(sense) => if changes(levels, sense) { 18 } else { 8 },
        None => row.len(),
    }
}

/// 1 for a valid retired SN with no DI after it.
pub fn lone(levels: Levels, row: &[u8]) -> usize
    ensures { result ≡ lone_of levels row.now }
{
    match capture_record::retired(row) {
        Some(sense) => if changes(levels, sense) { 0 } else { 1 },
        None => 0,
    }
}

/// Writes at `at` what is written for a record.
pub fn put(out: &mut [u8], at: usize, levels: Levels, row: &[u8])
    requires { at + length (part_of levels row.now) ≤ length out.old }
    ensures { out.new ≡ put_at out.old at (part_of levels row.now) }
{
    match capture_record::retired(row) {
        Some(sense) => {
            octets::copy(out, at, &line(levels, sense));
            if changes(levels, sense) {
                octets::copy(out, at + 8, &disk(levels, sense));
            }
        }
        None => octets::copy(out, at, row),
    }
}
