//! The items with no range to keep, their bodies read: RD, WR, VB, SE, RS, PW. A record is its bytes after the length.
#![tactic(auto)]

ghost use Rattle.std.specs.Prelude.{◌≡◌};
ghost use Rattle.item_spec.specs.Items.{plain_record, read_record, write_record, power_record};

use item_spec::{Item, Plain};
use refusal::Refusal;

/// VB, SE, RS: an item that is its wait alone.
#[tactic(auto, unfolding(item_spec::specs::Items::plain_record))]
pub fn plain_item(bytes: &[u8], kind: Plain) -> Result<Item, Refusal>
    ensures { result ≡ plain_record bytes.now kind }
{
    if bytes.len() != 4 {
        return Err(Refusal::WrongLength);
    }
    let wait = item_wait::wait_of(bytes);
    Ok(match kind {
        Plain::Blank => Item::Blank { wait },
        Plain::Second => Item::Second { wait },
        Plain::Reset => Item::Reset { wait },
    })
}

/// RD
#[tactic(auto, unfolding(item_spec::specs::Items::read_record))]
#[inline(always)]
pub fn read_item(bytes: &[u8]) -> Result<Item, Refusal>
    ensures { result ≡ read_record bytes.now }
{
    if bytes.len() != 8 {
        return Err(Refusal::WrongLength);
    }
    let location = item_address::find(octets::le32(bytes, 4)).ok_or(Refusal::UnknownAddress)?;
    Ok(location.read(item_wait::wait_of(bytes)))
}

/// WR
#[tactic(auto, unfolding(item_spec::specs::Items::write_record))]
pub fn write_item(bytes: &[u8]) -> Result<Item, Refusal>
    ensures { result ≡ write_record bytes.now }
{
    if bytes.len() != 9 {
        return Err(Refusal::WrongLength);
    }
    let location = item_address::find(octets::le32(bytes, 4)).ok_or(Refusal::UnknownAddress)?;
    Ok(location.write(item_wait::wait_of(bytes), bytes[8]))
}

/// PW
#[tactic(auto, unfolding(item_spec::specs::Items::power_record))]
pub fn power_item(bytes: &[u8]) -> Result<Item, Refusal>
    ensures { result ≡ power_record bytes.now }
{
    if bytes.len() != 8 {
        return Err(Refusal::WrongLength);
    }
    let wait = item_wait::wait_of(bytes);
    let seconds = octets::le32(bytes, 4);
    Ok(Item::Power { wait, seconds })
}
