//! The items whose bytes have ranges, their bodies read: IN, SN, DI, KC. A record is its bytes after the length.
#![tactic(auto)]

ghost use Rattle.std.specs.Prelude.{◌≡◌};
ghost use Rattle.item_spec.specs.Ranged.{line_record, sense_record, is_retired, disk_record, pulse_record};

use item_spec::Item;
use refusal::Refusal;

/// IN
#[tactic(auto, unfolding(item_spec::specs::Ranged::line_record))]
pub fn line_item(bytes: &[u8]) -> Result<Item, Refusal>
    ensures { result ≡ line_record bytes.now }
{
    let &[_, _, _, _, line, level] = bytes else {
        return Err(Refusal::WrongLength);
    };
    if 6 < line || 1 < level {
        return Err(Refusal::OutOfRange);
    }
    let wait = item_wait::wait_of(bytes);
    Ok(Item::Line { wait, line, level })
}

/// Whether SN on this register has retired.
#[tactic(auto, unfolding(item_spec::specs::Ranged::is_retired))]
pub fn is_retired(register: u8) -> bool
    ensures { result ≡ is_retired register }
{
    matches!(register, 0..=5 | 12 | 15)
}

/// SN
#[tactic(auto, unfolding(item_spec::specs::Ranged::sense_record))]
#[inline(always)]
pub fn sense_item(bytes: &[u8]) -> Result<Item, Refusal>
    ensures { result ≡ sense_record bytes.now }
{
    let &[_, _, _, _, drive, register, level] = bytes else {
        return Err(Refusal::WrongLength);
    };
    if 1 < drive || 15 < register || 1 < level {
        return Err(Refusal::OutOfRange);
    }
    if is_retired(register) {
        return Err(Refusal::RetiredRegister);
    }
    let wait = item_wait::wait_of(bytes);
    Ok(Item::Sense {
        wait,
        drive,
        register,
        level,
    })
}

/// DI
#[tactic(auto, unfolding(item_spec::specs::Ranged::disk_record))]
pub fn disk_item(bytes: &[u8]) -> Result<Item, Refusal>
    ensures { result ≡ disk_record bytes.now }
{
    let &[_, _, _, _, drive, insert, locked, sides] = bytes else {
        return Err(Refusal::WrongLength);
    };
    if 1 < drive || 1 < insert || 1 < locked || 1 < sides {
        return Err(Refusal::OutOfRange);
    }
    let wait = item_wait::wait_of(bytes);
    Ok(Item::Disk {
        wait,
        drive,
        insert,
        locked,
        sides,
    })
}

/// KC
#[tactic(auto, unfolding(item_spec::specs::Ranged::pulse_record))]
pub fn pulse_item(bytes: &[u8]) -> Result<Item, Refusal>
    ensures { result ≡ pulse_record bytes.now }
{
    let &[_, _, _, _, level] = bytes else {
        return Err(Refusal::WrongLength);
    };
    if 1 < level {
        return Err(Refusal::OutOfRange);
    }
    let wait = item_wait::wait_of(bytes);
    Ok(Item::Pulse { wait, level })
}
