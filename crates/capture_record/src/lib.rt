//! The records of an old capture: a walk over them, which of them is a valid retired SN, which a valid IN on line 0, and the levels known after one.
#![tactic(auto)]

ghost use Rattle.std.specs.Prelude.{◌≡◌, cond, [], ◌∷◌, Some, None, length, option_map};
ghost use Rattle.item_spec.specs.Kinds.{is_kind};
ghost use Rattle.capture_spec.specs.Capture.{retired_of, line0_of};
ghost use Rattle.capture_spec.specs.Levels.{first_levels, drive_sense_of, drive_of, sense_to, next_of};

use capture_spec::{DriveLevels, Levels};
use refusal::Refusal;

/// A walk over a capture: each of its whole records in turn, and refusal 1 where one is cut. Then there is no more.
#[derive(Clone, Copy)]
pub struct Records<'a> {
    /// What is left of the capture.
    pub left: &'a [u8],
}

impl<'a> Records<'a> {
    pub fn new(capture: &'a [u8]) -> Self
        ensures { result.left.now ≡ capture.now }
    {
        Records { left: capture }
    }
}

impl<'a> Iterator for Records<'a> {
    ghost use Rattle.std.specs.Iterator.{at_most};
    ghost use Rattle.capture_record.specs.Walk.{GivesRecord};

    type Item = Result<&'a [u8], Refusal>;

    ghost next_gives = { GivesRecord };

    ghost remaining = { λ w. at_most (length w.left.now) };

    fn next(&mut self) -> Option<Result<&'a [u8], Refusal>> {
        if self.left.is_empty() {
            return None;
        }
        let Some(size) = item_record::frame(self.left) else {
            self.left = &[];
            return Some(Err(Refusal::CutRecord));
        };
        let row = &self.left[..size];
        self.left = &self.left[size..];
        Some(Ok(row))
    }
}

/// Whether the bytes of a record after its length are of kind SN.
#[tactic(auto, unfolding(item_spec::specs::Kinds::is_kind))]
fn is_sense(body: &[u8]) -> bool
    ensures { result ≡ is_kind body.now (83 ∷ 78 ∷ []) }
{
    matches!(body, [b'S', b'N', ..])
}

/// Whether they are of kind IN.
// Two functions for two kinds: with the kind as a parameter it would be false of a kind of zeros, since `is_kind` reads 0 past the end.
#[tactic(auto, unfolding(item_spec::specs::Kinds::is_kind))]
fn is_line(body: &[u8]) -> bool
    ensures { result ≡ is_kind body.now (73 ∷ 78 ∷ []) }
{
    matches!(body, [b'I', b'N', ..])
}

/// Whether a record is a valid SN on a retired register.
#[tactic(auto, unfolding(capture_spec::specs::Capture::retired_of, item_spec::specs::Kinds::is_kind))]
pub fn is_retired(row: &[u8]) -> bool
    ensures { result ≡ retired_of row.now }
{
    let [_, _, body @ ..] = row else {
        return false;
    };
    if !is_sense(body) {
        return false;
    }
    let Err(refusal) = item_ranged::sense_item(body) else {
        return false;
    };
    matches!(refusal, Refusal::RetiredRegister)
}

/// The nine bytes of a record that is a valid SN on a retired register: its drive, register and level are the last three.
pub fn retired(row: &[u8]) -> Option<&[u8; 9]>
    ensures { option_map (λ sense. sense.now) result ≡ cond (retired_of row.now) (Some row.now) None }
{
    if is_retired(row) {
        row.first_chunk::<9>()
    } else {
        None
    }
}

/// Whether a record is a valid IN on line 0.
#[tactic(auto, unfolding(capture_spec::specs::Capture::line0_of, item_spec::specs::Kinds::is_kind))]
fn is_line0(row: &[u8]) -> bool
    ensures { result ≡ line0_of row.now }
{
    let [_, _, body @ ..] = row else {
        return false;
    };
    if !is_line(body) {
        return false;
    }
    let Ok(_) = item_ranged::line_item(body) else {
        return false;
    };
    row[6] == 0
}

/// Before the first record.
#[tactic(auto, unfolding(capture_spec::specs::Levels::first_levels, capture_spec::specs::Levels::no_levels))]
pub fn first() -> Levels
    ensures { result ≡ first_levels }
{
    let none = DriveLevels {
        cstin: 1,
        wrtprt: 1,
        sides: 1,
    };
    Levels {
        line0: 1,
        internal: none,
        external: none,
    }
}

/// A drive after an SN on it.
#[tactic(auto, unfolding(capture_spec::specs::Levels::drive_sense_of))]
fn drive_sense(mut levels: DriveLevels, register: u8, level: u8) -> DriveLevels
    ensures { result ≡ drive_sense_of levels register level }
{
    match register {
        1 => levels.cstin = level,
        3 => levels.wrtprt = level,
        12 => levels.sides = level,
        _ => (),
    }
    levels
}

/// One of the two drives.
#[tactic(auto, unfolding(capture_spec::specs::Levels::drive_of))]
pub fn drive(levels: Levels, drive: u8) -> DriveLevels
    ensures { result ≡ drive_of levels drive }
{
    if drive == 1 {
        levels.external
    } else {
        levels.internal
    }
}

/// After a valid retired SN.
#[tactic(auto, unfolding(capture_spec::specs::Levels::sense_to))]
fn sense(mut levels: Levels, drive: u8, register: u8, level: u8) -> Levels
    ensures { result ≡ sense_to levels drive register level }
{
    if drive == 1 {
        levels.external = drive_sense(levels.external, register, level);
    } else {
        levels.internal = drive_sense(levels.internal, register, level);
    }
    levels
}

/// After a record.
#[tactic(auto, unfolding(capture_spec::specs::Levels::next_of))]
pub fn next(mut levels: Levels, row: &[u8]) -> Levels
    ensures { result ≡ next_of levels row.now }
{
    if is_retired(row) {
        return sense(levels, row[6], row[7], row[8]);
    }
    if is_line0(row) {
        levels.line0 = row[7];
    }
    levels
}
