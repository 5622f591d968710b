//! The VIA in an image.
ghost use Rattle.std.specs.Prelude.{◌≡◌};
ghost use Rattle.image_spec.specs.ViaLayout.{via_bytes, via_of, ViaTyped};
ghost use Rattle.image_spec.proofs.ViaBack.{via-back};

use crate::{Layout, VIA_LENGTH};
use via::{Ports, Timer1, Timer2, Via};

impl Layout<VIA_LENGTH> for Via {
    ghost bytes_of = { via_bytes };

    ghost value_of = { via_of };

    ghost Fits = { ViaTyped };

    #[tactic(auto, unfolding(image_spec::specs::ViaLayout::via_bytes))]
    fn to_bytes(self) -> [u8; VIA_LENGTH]
        ensures { result ≡ via_bytes self }
    {
        let [counter1_low, counter1_high] = self.t1.counter.to_le_bytes();
        let [counter2_low, counter2_high] = self.t2.counter.to_le_bytes();
        [
            self.ports.outb,
            self.ports.outa,
            self.ports.dirb,
            self.ports.dira,
            counter1_low,
            counter1_high,
            self.t1.low,
            self.t1.high,
            self.t1.armed as u8,
            self.t1.due as u8,
            counter2_low,
            counter2_high,
            self.t2.low,
            self.t2.armed as u8,
            self.sr,
            self.acr,
            self.pcr,
            self.flags,
            self.enables,
            self.pulses,
        ]
    }

    #[tactic(auto, unfolding(image_spec::specs::ViaLayout::via_of))]
    fn from_bytes(bytes: [u8; VIA_LENGTH]) -> Via
        ensures { result ≡ via_of bytes }
    {
        Via {
            ports: Ports {
                outb: bytes[0],
                outa: bytes[1],
                dirb: bytes[2],
                dira: bytes[3],
            },
            t1: Timer1 {
                counter: u16::from_le_bytes([bytes[4], bytes[5]]),
                low: bytes[6],
                high: bytes[7],
                armed: bytes[8] == 1,
                due: bytes[9] == 1,
            },
            t2: Timer2 {
                counter: u16::from_le_bytes([bytes[10], bytes[11]]),
                low: bytes[12],
                armed: bytes[13] == 1,
            },
            sr: bytes[14],
            acr: bytes[15],
            pcr: bytes[16],
            flags: bytes[17],
            enables: bytes[18],
            pulses: bytes[19],
        }
    }

    ghost back = { via-back };
}
