//! The items of a clock transaction by their numbers, as records put into lent memory: request W-209.
#![tactic(auto)]

ghost use Rattle.std.specs.Prelude.{◌≡◌, ◌++◌, ◌/◌, ◌≤◌, ◌<◌, [], ◌∷◌, length, drop};
ghost use Rattle.std.specs.Int.{w32, to_le_bytes};
ghost use Rattle.transaction_spec.specs.Acts.{out_at};
ghost use Rattle.transaction_plan.specs.Plan.{sent_at, asked_at, data_at, act_at, part_at, parts};

use transaction_spec::Act;

/// What the records of a transaction are made of.
#[derive(Clone, Copy)]
pub struct Plan {
    /// Port B's output and direction bytes before it: bits 3 to 7 stay.
    pub outputs: u8,
    pub directions: u8,
    /// The command's first byte, and its second one where it has one.
    pub command: u8,
    pub second: Option<u8>,
    /// The byte to write, none of a read.
    pub byte: Option<u8>,
}

/// The addresses of the VIA's register 0, port B's outputs, and of register 2, their directions.
const PORT_B: u32 = 0xEF_E1FE;

const DIRECTIONS_B: u32 = 0xEF_E5FE;

impl Plan {
    /// Item `k`.
    #[tactic(auto, unfolding(crate::specs::Plan::act_at))]
    fn act(self, k: u8) -> Act
        ensures { result ≡ act_at self k }
    {
        match k {
            0 => Act::Port {
                enable: true,
                dataclock: false,
                data: false,
            },
            1 => Act::Side(true),
            2 => Act::Port {
                enable: false,
                dataclock: false,
                data: false,
            },
            3..=18 => sent(self.command, k - 3),
            _ => match self.second {
                Some(second) if k < 35 => sent(second, k - 19),
                Some(_) => data(self.byte, k - 35),
                None => data(self.byte, k - 19),
            },
        }
    }

    /// Writes the first `count` records at the front of `out`.
    pub fn write(self, count: u8, out: &mut [u8])
        requires { length (parts self count) ≤ length out.old }
        ensures { out.new ≡ parts self count ++ drop (length (parts self count)) out.old }
    {
        let mut at = 0;
        for k in 0..count {
            at += self.put(k, &mut out[at..]);
        }
    }

    /// Puts the record of item `k` at the front of `out`, and gives its length.
    #[tactic(auto, unfolding(crate::specs::Plan::part_at))]
    fn put(self, k: u8, out: &mut [u8]) -> usize
        requires { length (part_at self k) ≤ length out.old }
        ensures size { result ≡ length (part_at self k) }
        ensures written { out.new ≡ part_at self k ++ drop (length (part_at self k)) out.old }
    {
        match self.act(k) {
            Act::Port {
                enable,
                dataclock,
                data,
            } => {
                let value = line_byte(self.outputs, enable, dataclock, data);
                put_front(out, &write_record(PORT_B, value))
            }
            Act::Side(data) => {
                let value = line_byte(self.directions, true, true, data);
                put_front(out, &write_record(DIRECTIONS_B, value))
            }
            Act::Look => put_front(out, &read_record(PORT_B)),
        }
    }
}

/// Puts a record at the front of `out`, and gives its length.
fn put_front(out: &mut [u8], bytes: &[u8]) -> usize
    requires { length bytes.now ≤ length out.old }
    ensures size { result ≡ length bytes.now }
    ensures written { out.new ≡ bytes.now ++ drop (length bytes.now) out.old }
{
    out[..bytes.len()].copy_from_slice(bytes);
    bytes.len()
}

/// WR of the register at this address, its wait 0: a record of kind WR has nine bytes after its length.
fn write_record(address: u32, value: u8) -> [u8; 11]
    ensures { result ≡ 9 ∷ 0 ∷ 87 ∷ 82 ∷ 0 ∷ 0 ∷ (to_le_bytes w32 address ++ (value ∷ [])) }
{
    let [a, b, c, d] = address.to_le_bytes();
    [9, 0, b'W', b'R', 0, 0, a, b, c, d, value]
}

/// RD of the register at this address, its wait 0.
fn read_record(address: u32) -> [u8; 10]
    ensures { result ≡ 8 ∷ 0 ∷ 82 ∷ 68 ∷ 0 ∷ 0 ∷ to_le_bytes w32 address }
{
    let [a, b, c, d] = address.to_le_bytes();
    [8, 0, b'R', b'D', 0, 0, a, b, c, d]
}

/// Port B's byte with other levels in bits 0 to 2.
fn line_byte(byte: u8, enable: bool, dataclock: bool, dataline: bool) -> u8
    ensures { result ≡ out_at (byte / 8) enable dataclock dataline }
{
    byte & 0xF8 | (u8::from(enable) << 2 | u8::from(dataclock) << 1 | u8::from(dataline))
}

/// Item `j` of the sixteen that send a byte, the high bit first: put on the line, then clocked.
#[tactic(auto, unfolding(crate::specs::Plan::sent_at))]
fn sent(byte: u8, j: u8) -> Act
    requires { j < 16 }
    ensures { result ≡ sent_at byte j }
{
    Act::Port {
        enable: false,
        dataclock: j % 2 == 1,
        data: byte >> (7 - j / 2) & 1 == 1,
    }
}

/// Item `j` of the three that ask for a bit.
#[tactic(auto, unfolding(crate::specs::Plan::asked_at))]
fn asked(j: u8) -> Act
    ensures { result ≡ asked_at j }
{
    match j {
        0 => Act::Port {
            enable: false,
            dataclock: false,
            data: false,
        },
        1 => Act::Look,
        _ => Act::Port {
            enable: false,
            dataclock: true,
            data: false,
        },
    }
}

/// Item `j` after the command: of a byte to write, or of a read.
#[tactic(auto, unfolding(crate::specs::Plan::data_at))]
fn data(byte: Option<u8>, j: u8) -> Act
    ensures { result ≡ data_at byte j }
{
    match (byte, j) {
        (Some(byte), 0..=15) => sent(byte, j),
        (None, 0) => Act::Side(false),
        (None, 1..=24) => asked((j - 1) % 3),
        _ => Act::Port {
            enable: true,
            dataclock: true,
            data: false,
        },
    }
}
