//! The writer of clock transactions for C and Rust shells: numbers and byte slices, the state as a lent image. The crate swarmtempo_c exports `transaction`.
#![tactic(auto)]

ghost use Rattle.std.specs.Prelude.{◌≡◌, length};
ghost use Rattle.transaction_entry.specs.Call.{placed_of, request_of, result_of, output_of, stop_of, written_of, CallDoes};

use refusal::Refusal;
use transaction_spec::Ask;

/// What is asked for of a cell or a seconds byte.
#[tactic(auto, unfolding(crate::specs::Call::placed_of))]
fn placed(ask: u8, place: u8, value: u8) -> Option<Ask>
    ensures { result ≡ placed_of ask place value }
{
    match ask {
        1 => Some(Ask::WriteCell {
            cell: place,
            byte: value,
        }),
        2 => Some(Ask::ReadCell(place)),
        3 => Some(Ask::WriteSeconds { place, byte: value }),
        4 => Some(Ask::ReadSeconds(place)),
        _ => None,
    }
}

/// What the numbers of a call ask for.
#[tactic(auto, unfolding(crate::specs::Call::request_of))]
fn request_of(ask: u8, number: u32, value: u8) -> Option<Ask>
    ensures { result ≡ request_of ask number value }
{
    if ask == 5 {
        return Some(Ask::WriteProtect(value));
    }
    placed(ask, u8::try_from(number).ok()?, value)
}

/// Writes what is asked for of an image's state, and gives the number of bytes written; a refusal writes nothing.
#[tactic(auto, unfolding(crate::specs::Call::result_of, crate::specs::Call::output_of, crate::specs::Call::answer_of, crate::specs::Call::buffer_of))]
fn answer(image: &[u8], request: Option<Ask>, out: &mut [u8]) -> Result<usize, Refusal>
    ensures value { result ≡ result_of image.now request (length out.old) }
    ensures out_after { out.new ≡ output_of image.now request out.old }
{
    if !image::exact(image) {
        return Err(Refusal::NotAccepted);
    }
    let machine = image::load(image);
    if !machine::accepted_cleared(&machine) {
        return Err(Refusal::NotAccepted);
    }
    let ask = request.ok_or(Refusal::OutOfRange)?;
    transaction_writer::write_transaction(&machine, ask, out)
}

/// Writes a transaction for the image's state. 0, or refusal 7, 5, 10 or 6 with nothing written. The last clause: a call with what was written does what was
/// asked for.
// What is asked for is a number, and the parameters travel together, as they are swarmtempo_transaction's: the C interface.
pub fn transaction(
    image: &[u8],
    ask: u8,
    number: u32,
    value: u8,
    out: &mut [u8],
    written: &mut u64,
) -> u8
    ensures value { result ≡ stop_of (result_of image.now (request_of ask number value) (length out.old)) }
    ensures written_after { written.new ≡ written_of (result_of image.now (request_of ask number value) (length out.old)) }
    ensures out_after { out.new ≡ output_of image.now (request_of ask number value) out.old }
    ensures call_does { result ≡ 0 → CallDoes image.now (request_of ask number value) written.new out.new }
{
    let result = answer(image, request_of(ask, number, value), out);
    *written = result.unwrap_or(0) as u64;
    refusal::stop_number(result.err())
}
