//! What single bytes of the VIA become, over numbers alone.
#![tactic(auto)]

ghost use Rattle.std.specs.Prelude.{◌≡◌};
ghost use Rattle.via_bits.specs.Bytes.{port_a_flags, enabled_by};

/// The flags that an access to register 1 clears: flag 1, and flag 0 unless PCR bits 3 to 1 are 001 or 011.
#[tactic(auto, unfolding(crate::specs::Bytes::port_a_flags))]
pub fn port_a_flags(pcr: u8) -> u8
    ensures { result ≡ port_a_flags pcr }
{
    match pcr / 2 % 8 {
        1 | 3 => 2,
        _ => 3,
    }
}

/// Enables set where bits 0 to 6 are 1 if bit 7 is 1, else cleared.
#[tactic(auto, unfolding(crate::specs::Bytes::enabled_by))]
pub fn enable(value: u8, enables: u8) -> u8
    ensures { result ≡ enabled_by value enables }
{
    let mask = value % 128;
    if value / 128 == 1 {
        enables | mask
    } else {
        enables & !mask
    }
}
