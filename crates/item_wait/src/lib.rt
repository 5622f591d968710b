//! The wait at the front of every item's body.
#![tactic(auto)]

ghost use Rattle.std.specs.Prelude.{◌≡◌, ◌≤◌, length};
ghost use Rattle.item_spec.specs.Items.{record_wait};

use units::WaitTicks;

/// The wait of a record, its bytes after the length, in VIA ticks.
#[tactic(auto, unfolding(octets::specs::Octets::le16_of))]
pub fn wait_of(bytes: &[u8]) -> WaitTicks
    requires { 4 ≤ length bytes.now }
    ensures { result ≡ record_wait bytes.now }
{
    WaitTicks::from_le_bytes([bytes[2], bytes[3]])
}
