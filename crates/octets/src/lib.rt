//! Bytes and numbers: little-endian numbers in a list of bytes, a byte of a number taken or replaced, and copying into lent memory.
#![tactic(auto)]

ghost use Rattle.std.specs.Prelude.{◌≡◌, ◌+◌, ◌/◌, ◌%◌, ◌^◌, ◌≤◌, ◌<◌, length};
ghost use Rattle.octets.specs.Octets.{le16_of, le32_of, put_at, replace};

/// The two bytes at `at` as a number, the lower first.
#[tactic(auto, unfolding(crate::specs::Octets::le16_of))]
pub fn le16(bytes: &[u8], at: usize) -> u16
    requires { at + 2 ≤ length bytes.now }
    ensures { result ≡ le16_of bytes.now at }
{
    u16::from_le_bytes([bytes[at], bytes[at + 1]])
}

/// The four bytes at `at` as a number, the lowest first.
#[tactic(auto, unfolding(crate::specs::Octets::le32_of))]
pub fn le32(bytes: &[u8], at: usize) -> u32
    requires { at + 4 ≤ length bytes.now }
    ensures { result ≡ le32_of bytes.now at }
{
    u32::from_le_bytes([bytes[at], bytes[at + 1], bytes[at + 2], bytes[at + 3]])
}

/// Byte k of a number, 0 the lowest.
pub fn byte_at(number: u32, k: u8) -> u8
    requires { k < 4 }
    ensures { result ≡ number / 256 ^ k % 256 }
{
    number.to_le_bytes()[k as usize]
}

/// The number with byte k replaced, 0 the lowest.
#[tactic(auto, unfolding(crate::specs::Octets::replace))]
pub fn replaced(number: u32, k: u8, byte: u8) -> u32
    requires { k < 4 }
    ensures { result ≡ replace k byte number }
{
    let mut bytes = number.to_le_bytes();
    bytes[k as usize] = byte;
    u32::from_le_bytes(bytes)
}

/// Writes the bytes of `x` into `d` from `at` on.
pub fn copy(d: &mut [u8], at: usize, x: &[u8])
    requires { at + length x.now ≤ length d.old }
    ensures { d.new ≡ put_at d.old at x.now }
{
    d[at..at + x.len()].copy_from_slice(x);
}
