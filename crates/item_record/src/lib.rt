//! Records framed, and answers as bytes put into their eight bytes of room.
#![tactic(auto)]

ghost use Rattle.std.specs.Prelude.{◌≡◌, ◌+◌, ◌≤◌, length};
ghost use Rattle.refusal.specs.declared.Refusal.{Refusal};
ghost use Rattle.refusal.specs.Numbers.{number_of};
ghost use Rattle.item_spec.specs.Record.{frame_of, answer_bytes};
ghost use Rattle.item_record.specs.Refused.{no_bytes};
ghost use Rattle.octets.specs.Octets.{put_at};

use item_spec::{Answer, Shown};

/// The two kinds of an answer.
const OK: &[u8; 2] = b"OK";

const NO: &[u8; 2] = b"NO";

/// How many bytes the record at the front of a list takes, the two of its length among them; none where it is cut (refusal 1).
#[tactic(auto, unfolding(item_spec::specs::Record::frame_of, octets::specs::Octets::le16_of))]
pub fn frame(list: &[u8]) -> Option<usize>
    ensures { result ≡ frame_of list.now }
{
    let [low, high, body @ ..] = list else {
        return None;
    };
    let n = u16::from_le_bytes([*low, *high]) as usize;
    if n < 2 || body.len() < n {
        return None;
    }
    Some(n + 2)
}

/// The eight bytes of an answer of kind NO with this number, which need not be one of the refusals'.
#[tactic(auto, unfolding(crate::specs::Refused::no_bytes))]
pub fn no(number: u8) -> [u8; 8]
    ensures bytes { result ≡ no_bytes number }
    ensures of_refusal { (r : Refusal) → number ≡ number_of r → result ≡ answer_bytes (Err r) }
{
    [6, 0, NO[0], NO[1], number, 0, 0, 0]
}

/// The eight bytes of an answer.
#[tactic(auto, unfolding(item_spec::specs::Record::answer_bytes))]
pub fn answer_bytes(answer: Answer) -> [u8; 8]
    ensures { result ≡ answer_bytes answer }
{
    match answer {
        Ok(shown) => {
            let Shown {
                value,
                level,
                lines,
                sel,
            } = shown;
            [6, 0, OK[0], OK[1], value, level, lines, sel]
        }
        Err(refusal) => no(u8::from(refusal)),
    }
}

/// Writes eight bytes at `at`.
pub fn put(memory: &mut [u8], at: usize, bytes: [u8; 8])
    requires { at + 8 ≤ length memory.old }
    ensures { memory.new ≡ put_at memory.old at bytes }
{
    memory[at..at + 8].copy_from_slice(&bytes);
}
