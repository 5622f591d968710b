//! Microseconds, VIA ticks and the waits of records: types of their own, so that no count of one is taken for another.
#![tactic(auto)]

ghost use Rattle.std.specs.Prelude.{◌≡◌, ◌+◌, ◌*◌, slice_index};
ghost use Rattle.units.specs.Units.{ticks_of, for_ticks};

/// Microseconds.
#[derive(Clone, Copy, PartialEq, Eq)]
pub struct Micros(pub u32);

/// VIA ticks, 783,360 in a second.
#[derive(Clone, Copy, PartialEq, Eq)]
pub struct ViaTicks(pub u32);

/// Microseconds in VIA ticks, rounded up. The only place where one becomes the other.
impl From<Micros> for ViaTicks {
    ghost from_gives = { λ micros ticks. ticks.0 ≡ ticks_of micros.0 };

    #[tactic(auto, unfolding(crate::specs::Units::ticks_of))]
    fn from(micros: Micros) -> ViaTicks {
        let millionths = u64::from(micros.0) * 783_360;
        ViaTicks(millionths.div_ceil(1_000_000) as u32)
    }
}

/// A wait as a record has it: VIA ticks, 16 bits. It is made here alone, from the two bytes of a record, and no other number can stand for one.
#[derive(Clone, Copy, PartialEq, Eq)]
pub struct WaitTicks(u16);

impl WaitTicks {
    /// The wait of two bytes, the lower first.
    pub fn from_le_bytes(bytes: [u8; 2]) -> WaitTicks
        ensures { result ≡ for_ticks (slice_index bytes 0 + slice_index bytes 1 * 256) }
    {
        WaitTicks(u16::from_le_bytes(bytes))
    }

    /// Its number of VIA ticks.
    pub fn ticks(self) -> u16
        ensures { result ≡ self.0 }
    {
        self.0
    }
}
