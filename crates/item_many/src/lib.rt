//! MW, its body read: W-211's many writes to one address. It is handed on as the last of its single WR items, after its wait; the values stay in the record.
#![tactic(auto)]

ghost use Rattle.std.specs.Prelude.{◌≡◌};
ghost use Rattle.item_spec.specs.Many.{many_record};
ghost use Rattle.item_spec.specs.Kinds.{many};
ghost use Rattle.item_many.specs.LastWrite.{as_last_write};

use item_spec::Item;
use refusal::Refusal;

/// MW. A record is its bytes after the length.
#[tactic(auto, unfolding(item_spec::specs::Many::many_record, item_spec::specs::Many::counted_record))]
pub fn many_item(bytes: &[u8]) -> Result<Item, Refusal>
    ensures { result ≡ as_last_write bytes.now (many (many_record bytes.now)) }
{
    if bytes.len() < 9 {
        return Err(Refusal::WrongLength);
    }
    let location = item_address::find(octets::le32(bytes, 4)).ok_or(Refusal::UnknownAddress)?;
    let count = bytes[8];
    if count == 0 || 64 < count {
        return Err(Refusal::OutOfRange);
    }
    if bytes.len() != 9 + count as usize {
        return Err(Refusal::WrongLength);
    }
    let last = bytes[bytes.len() - 1];
    Ok(location.write(item_wait::wait_of(bytes), last))
}
