//! The VIA's flags: asking for an interrupt, and in their range with the count of pulses.
#![tactic(auto)]

ghost use Rattle.std.specs.Prelude.{◌≡◌};
ghost use Rattle.via.specs.Via.{asking, level_of, accepted_via};

use via::Via;

/// Whether an enabled flag is set.
#[tactic(auto, unfolding(via::specs::Via::asking))]
pub fn asks(via: Via) -> bool
    ensures { result ≡ asking via }
{
    via.flags & via.enables & 127 != 0
}

/// The VIA's own part of the interrupt level, 0 or 1.
#[tactic(auto, unfolding(via::specs::Via::level_of))]
pub fn level(via: Via) -> u8
    ensures { result ≡ level_of via }
{
    u8::from(asks(via))
}

/// Whether bit 7 of flags and enables, room not in use, is 0, and the pulses since the last eighth are 0 to 7.
#[tactic(auto, unfolding(via::specs::Via::accepted_via))]
pub fn accepted(via: Via) -> bool
    ensures { result ≡ accepted_via via }
{
    via.flags < 128 && via.enables < 128 && via.pulses < 8
}
