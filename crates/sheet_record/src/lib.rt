//! The records of a sheet of settings (W-213): one record, and a walk over them.
#![tactic(auto)]

ghost use Rattle.std.specs.Prelude.{◌≡◌, ◌≤◌, ◌-◌, length, option_map, IfSome};
ghost use Rattle.sheet_spec.specs.Records.{first_of};
ghost use Rattle.sheet_spec.specs.Counting.{version_of};

use refusal::Refusal;

/// A record of a sheet: setting number (2 bytes), version (1), then up to 64 bytes.
#[derive(Clone, Copy)]
pub struct Record<'a> {
    /// Where its setting's bytes start in the sheet.
    pub start: usize,
    /// The whole record, from the two bytes of its length on.
    pub bytes: &'a [u8],
    pub ghost long: { 7 ≤ length bytes.now },
}

impl Record<'_> {
    ghost use Rattle.sheet_spec.specs.Counting.{setting_of, version_of, beats_of};

    /// The number of its setting.
    pub fn setting(&self) -> u16
        ensures { result ≡ setting_of self.now.bytes.now }
    {
        octets::le16(self.bytes, 4)
    }

    /// Its version.
    pub fn version(&self) -> u8
        ensures { result ≡ version_of self.now.bytes.now }
    {
        version(self.bytes)
    }

    /// Whether it counts in place of an earlier record of this setting with this version.
    #[tactic(auto, unfolding(sheet_spec::specs::Counting::beats_of))]
    pub fn beats(&self, setting: u16, version: u8) -> bool
        ensures { result ≡ beats_of setting version self.now.bytes.now }
    {
        self.setting() == setting && version <= self.version()
    }
}

/// A record's version, where its bytes stand; 0 of fewer than a record has.
pub fn version(bytes: &[u8]) -> u8
    ensures { result ≡ version_of bytes.now }
{
    bytes.get(6).copied().unwrap_or(0)
}

/// The record at the front of some bytes: of kind SV, its length 5 to 69.
#[tactic(auto, unfolding(sheet_spec::specs::Records::first_of, item_spec::specs::Kinds::is_kind))]
pub fn first(bytes: &[u8]) -> Option<&[u8]>
    ensures value { option_map (λ r. r.now) result ≡ first_of bytes.now }
    ensures in_bounds { IfSome result (λ r. length r.now ≤ length bytes.now) }
{
    let size = item_record::frame(bytes)?;
    if (5..=69).contains(&(size - 2)) && matches!(bytes, [_, _, b'S', b'V', ..]) {
        Some(&bytes[..size])
    } else {
        None
    }
}

/// A walk over a sheet: each of its records in turn, and refusal 1 where bytes are left that are none.
#[derive(Clone, Copy)]
pub struct Records<'a> {
    pub sheet: &'a [u8],
    /// How many bytes the records taken so far have.
    pub at: usize,
    pub ghost inside: { at ≤ length sheet.now },
}

impl<'a> Records<'a> {
    pub fn new(sheet: &'a [u8]) -> Self
        ensures sheet { result.sheet.now ≡ sheet.now }
        ensures front { result.at ≡ 0 }
    {
        Records { sheet, at: 0 }
    }
}

impl<'a> Iterator for Records<'a> {
    ghost use Rattle.std.specs.Iterator.{at_most};
    ghost use Rattle.sheet_record.specs.Walk.{GivesRecord};

    type Item = Result<Record<'a>, Refusal>;

    ghost next_gives = { GivesRecord };

    ghost remaining = { λ w. at_most (length w.sheet.now - w.at) };

    fn next(&mut self) -> Option<Result<Record<'a>, Refusal>> {
        if self.at == self.sheet.len() {
            return None;
        }
        let Some(bytes) = first(&self.sheet[self.at..]) else {
            self.at = self.sheet.len();
            return Some(Err(Refusal::CutRecord));
        };
        let start = self.at + 7;
        self.at += bytes.len();
        Some(Ok(Record { start, bytes }))
    }
}
