//! The 32 addresses: sixteen VIA registers and sixteen IWM locations.
#![tactic(auto)]

ghost use Rattle.std.specs.Prelude.{◌≡◌};
ghost use Rattle.item_spec.specs.Addresses.{place_from, found_of};

use item_spec::Location;

/// The addresses of VIA register 0 and of IWM location 0; the others follow 512 apart.
const VIA_BASE: u32 = 0xefe1fe;

const IWM_BASE: u32 = 0xdfe1ff;

/// Which of the sixteen places from `base` on an address is.
#[tactic(auto, unfolding(item_spec::specs::Addresses::place_from))]
fn place_from(address: u32, base: u32) -> Option<u8>
    ensures { result ≡ place_from address base }
{
    let above = address.checked_sub(base)?;
    if 15 * 512 < above || above % 512 != 0 {
        return None;
    }
    Some((above / 512) as u8)
}

/// What stands at an address. All 32 bits of it count.
#[tactic(auto, unfolding(item_spec::specs::Addresses::found_of))]
pub fn find(address: u32) -> Option<Location>
    ensures { result ≡ found_of address }
{
    if let Some(register) = place_from(address, VIA_BASE) {
        return Some(Location::Via(register));
    }
    let location = place_from(address, IWM_BASE)?;
    Some(Location::Iwm(location))
}
