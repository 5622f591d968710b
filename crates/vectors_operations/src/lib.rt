//! The operations of a script's lines: which there are, the accesses that each makes, the record of an access, the value seen.
#![tactic(auto)]

ghost use Rattle.std.specs.Prelude.{◌≡◌};
ghost use Rattle.vectors_operations.specs.Operations.{write, read, iwm, known_of, accesses_of, access_of, record_of, start_of, seen_of, byte_of, changed_of};

/// An operation, by its letter, and its two numbers. An access is one of the three single ones: `w`, WR to VIA register `a` of the value `b`; `r` and
/// `i`, RD of VIA register or IWM location `a` after `b` VIA ticks.
// The letter stays a byte: the definitions (`known_of`, `order_read`) speak of it as the script's own character.
#[derive(Clone, Copy, PartialEq, Eq)]
pub struct Order {
    pub op: u8,
    pub a: u64,
    pub b: u64,
}

/// WR of a value to a VIA register.
fn write(register: u64, value: u64) -> Order
    ensures { result ≡ write register value }
{
    Order {
        op: b'w',
        a: register,
        b: value,
    }
}

/// RD of a VIA register.
fn read(register: u64) -> Order
    ensures { result ≡ read register }
{
    Order {
        op: b'r',
        a: register,
        b: 0,
    }
}

/// RD of an IWM location after so many VIA ticks.
// `write`, `read` and `iwm` are three, as the definitions of these names: each fills other fields.
fn iwm(location: u64, ticks: u64) -> Order
    ensures { result ≡ iwm location ticks }
{
    Order {
        op: b'i',
        a: location,
        b: ticks,
    }
}

/// Whether an operation is known and takes these numbers.
#[tactic(auto, unfolding(crate::specs::Operations::known_of))]
pub fn known(op: u8, a: u64, b: u64) -> bool
    ensures { result ≡ known_of op a b }
{
    match op {
        b'w' => a < 16 && b < 256,
        b'r' | b'i' => a < 16 && b < 65536,
        b'b' | b't' => a < 9 && b < 256,
        b'z' => b < 256,
        b'm' => b == 0,
        b'a' => a < 16 && b == 0,
        b'g' | b's' => a < 256 && b == 0,
        _ => false,
    }
}

impl Order {
    /// How many accesses the operation makes.
    #[tactic(auto, unfolding(crate::specs::Operations::accesses_of))]
    pub fn accesses(self) -> u64
        ensures { result ≡ accesses_of self }
    {
        match self.op {
            b'w' | b'r' | b'i' => 1,
            b'a' => 4,
            b'b' => self.a % 256 * 2,
            _ => self.a % 256 * 3,
        }
    }

    /// Access `k` of the operation. The clock's data is bit 0 of port B, its data-clock bit 1; an input is undriven and 1. Bit 7 of the byte is sent.
    #[tactic(auto, unfolding(crate::specs::Operations::access_of))]
    pub fn access(self, k: u64, byte: u64) -> Order
        ensures { result ≡ access_of self k byte }
    {
        let level = byte / 128 % 2;
        match self.op {
            // CA0, CA1, CA2 and SEL take bits 1, 2, 3 and 0 of the number.
            b'a' => match k {
                0 => iwm(self.a / 2 % 2, 0),
                1 => iwm(self.a / 4 % 2 + 2, 0),
                2 => iwm(self.a / 8 % 2 + 4, 0),
                _ => write(15, self.a % 2 * 32),
            },
            // LSTRB on, off after 1 VIA tick; the sense is read 9,401 VIA ticks later.
            b's' => match k % 3 {
                0 => iwm(7, 0),
                1 => iwm(6, 1),
                _ => iwm(14, 9401),
            },
            // Port B is read; data-clock rises and falls.
            b'g' => match k % 3 {
                0 => read(0),
                1 => write(0, 2),
                _ => write(0, 0),
            },
            // Data; data-clock rises and falls by writes of the directions.
            b't' => match k % 3 {
                0 => write(0, level),
                1 => write(2, 5),
                _ => write(2, 7),
            },
            // Data with data-clock low, then high.
            b'b' => write(0, level + k % 2 * 2),
            _ => self,
        }
    }

    /// The record of an access, and a byte behind one that is shorter.
    #[tactic(auto, unfolding(crate::specs::Operations::record_of))]
    pub fn record(self) -> [u8; 11]
        ensures { result ≡ record_of self }
    {
        let place = 0xe1 + 2 * (self.a % 16) as u8;
        let [low, high, ..] = self.b.to_le_bytes();
        match self.op {
            b'w' => [9, 0, b'W', b'R', 0, 0, 0xfe, place, 0xef, 0, low],
            b'r' => [8, 0, b'R', b'D', low, high, 0xfe, place, 0xef, 0, 0],
            _ => [8, 0, b'R', b'D', low, high, 0xff, place, 0xdf, 0, 0],
        }
    }

    /// The byte before the operation: the one to send, or the value before.
    #[tactic(auto, unfolding(crate::specs::Operations::start_of))]
    pub fn start(self, value: u64) -> u64
        ensures { result ≡ start_of self value }
    {
        match self.op {
            b'b' | b't' => self.b,
            _ => value,
        }
    }
}

/// The byte after access `k`: the one read; or, once its bit is sent or read, moved up by one bit, with the bit read behind.
#[tactic(auto, unfolding(crate::specs::Operations::seen_of))]
pub fn seen(op: u8, k: u64, byte: u64, read: u8) -> u64
    ensures { result ≡ seen_of op k byte read }
{
    match op {
        b'r' | b'i' => u64::from(read),
        b'g' if k % 3 == 0 => byte % 128 * 2 + u64::from(read % 2),
        b't' if k % 3 == 2 => byte % 128 * 2,
        b'b' if k % 2 == 1 => byte % 128 * 2,
        _ => byte,
    }
}

/// A byte of the image, seen or, with `z`, changed and then 0; `None` where the image has no such byte.
#[tactic(auto, unfolding(crate::specs::Operations::byte_of, crate::specs::Operations::changed_of))]
pub fn byte(image: &mut [u8], order: Order) -> Option<u8>
    ensures value { result ≡ byte_of image.old order }
    ensures image_after { image.new ≡ changed_of image.old order }
{
    let k = order.a as usize;
    if image.len() <= k {
        return None;
    }
    if order.op == b'm' {
        return Some(image[k]);
    }
    image[k] = order.b.to_le_bytes()[0];
    Some(0)
}
