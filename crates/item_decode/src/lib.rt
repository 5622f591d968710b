//! The decoder: the bytes of one record, its kind first, are an item or a refusal.
#![tactic(auto)]

ghost use Rattle.std.specs.Prelude.{◌≡◌, ◌≤◌, length};
ghost use Rattle.item_spec.specs.Kinds.{is_kind, decoded_of};
ghost use Rattle.item_many.specs.LastWrite.{as_last_write};
ghost use Rattle.item_decode.specs.Values.{first_value};

use item_spec::{Item, Plain};
use refusal::Refusal;

/// Whether a record's kind is this one.
#[tactic(auto, unfolding(item_spec::specs::Kinds::is_kind))]
pub fn is(bytes: &[u8], kind: &[u8; 2]) -> bool
    requires { 2 ≤ length bytes.now }
    ensures { result ≡ is_kind bytes.now kind.now }
{
    bytes.starts_with(kind)
}

/// A record's bytes after its length: an item, or refusal 2, 3, 4, 5 or 9. Of an MW the item is its last write.
#[tactic(auto, unfolding(item_spec::specs::Kinds::decoded_of, item_spec::specs::Kinds::is_kind))]
#[inline(always)]
pub fn decode(bytes: &[u8]) -> Result<Item, Refusal>
    ensures { result ≡ as_last_write bytes.now (decoded_of bytes.now) }
{
    let Some(kind) = bytes.first_chunk::<2>() else {
        return Err(Refusal::UnknownKind);
    };
    match kind {
        b"RD" => item_plain::read_item(bytes),
        b"WR" => item_plain::write_item(bytes),
        b"VB" => item_plain::plain_item(bytes, Plain::Blank),
        b"SE" => item_plain::plain_item(bytes, Plain::Second),
        b"IN" => item_ranged::line_item(bytes),
        b"SN" => item_ranged::sense_item(bytes),
        b"RS" => item_plain::plain_item(bytes, Plain::Reset),
        b"PW" => item_plain::power_item(bytes),
        b"DI" => item_ranged::disk_item(bytes),
        b"MW" => item_many::many_item(bytes),
        b"KC" => item_ranged::pulse_item(bytes),
        _ => Err(Refusal::UnknownKind),
    }
}

/// Where a record's values begin among its bytes after the length.
// It asks for two bytes, as `is` does, and what calls it above: the last byte of none is nowhere.
pub fn first_value(bytes: &[u8]) -> usize
    requires { 2 ≤ length bytes.now }
    ensures { result ≡ first_value bytes.now }
{
    if bytes[0] == b'M' { 9 } else { bytes.len() - 1 }
}
