//! Sheets of settings (W-213): types, what document 02 says of them (specs/) and the laws of that (proofs/). The code is in sheet_record, sheet and
//! sheet_compact.
#![tactic(auto)]

ghost use Rattle.std.specs.Prelude.{◌≡◌, Some, Ok};

/// Which of the two sheets a setting's bytes come from, with the number that shells know it by.
#[derive(Clone, Copy, PartialEq, Eq)]
pub enum Source {
    Bench = 1,
    House = 2,
}

impl From<Source> for u8 {
    ghost use Rattle.sheet_spec.specs.Lookup.{sheet_number};

    ghost from_gives = { λ source number. number ≡ sheet_number (Ok (Some source)) };

    #[tactic(auto, unfolding(crate::specs::Lookup::sheet_number))]
    fn from(source: Source) -> u8 {
        source as u8
    }
}

/// A part of one sheet: where it starts, and its number of bytes.
#[derive(Clone, Copy, PartialEq, Eq)]
pub struct Part {
    pub start: usize,
    pub size: usize,
}

/// Where a setting's bytes stand: which sheet, their place in it and their number.
#[derive(Clone, Copy, PartialEq, Eq)]
pub struct Place {
    pub source: Source,
    pub start: usize,
    pub size: usize,
}
