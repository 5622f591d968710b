//! The refusals of the requirements: one enum for every part, with the number that answers, stops and C shells carry.
#![tactic(auto)]

ghost use Rattle.std.specs.Prelude.{◌≡◌, Option};
ghost use Rattle.refusal.specs.Numbers.{number_of, stop_of};

/// Why something asked for is not done. The number of each is the requirements' own.
#[derive(Clone, Copy, PartialEq, Eq)]
pub enum Refusal {
    /// Fewer than two bytes left, a length below 2, or a record cut short.
    CutRecord = 1,
    /// No item has this kind.
    UnknownKind = 2,
    /// The length is wrong for the kind.
    WrongLength = 3,
    /// The address is none of the 32.
    UnknownAddress = 4,
    /// A line, drive, register, level, count or cell is out of range.
    OutOfRange = 5,
    /// What was asked for does not fit in the memory that is left.
    NoRoom = 6,
    /// The state is not an accepted one.
    NotAccepted = 7,
    /// A disk inserted where one is, or removed where none is.
    DiskMismatch = 8,
    /// SN on a sense register that the drive has itself.
    RetiredRegister = 9,
    /// The clock's enable is 0: a transaction is open already.
    TransactionOpen = 10,
    /// A ninth key code.
    TooManyKeys = 11,
}

impl From<Refusal> for u8 {
    ghost from_gives = { λ refusal number. number ≡ number_of refusal };

    fn from(refusal: Refusal) -> u8 {
        refusal as u8
    }
}

/// The number that a stop carries: that of the refusal, 0 where there is none.
pub fn stop_number(refusal: Option<Refusal>) -> u8
    ensures { result ≡ stop_of refusal }
{
    match refusal {
        Some(refusal) => u8::from(refusal),
        None => 0,
    }
}
