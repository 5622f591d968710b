//! The run for C and Rust shells: numbers and byte slices, the state as a lent image. The crate swarmtempo_c exports the functions with the names swarmtempo_*.
//!
//! A refusal is its number here, parameters travel together, and functions of one shape stand side by side, one for each exported name: the C interface has
//! no Result, no struct of slices and no type parameter.
#![tactic(auto)]

ghost use Rattle.std.specs.Prelude.{◌≡◌, length, true};
ghost use Rattle.image_spec.specs.Image.{machine_of, valid_image};
ghost use Rattle.demand3.specs.Runs.{Run3};
ghost use Rattle.units.specs.Units.{ticks_of};
ghost use Rattle.capture_spec.specs.Convert.{converted_of, output_of, refusal_number};
ghost use Rattle.refusal.specs.Numbers.{stop_of as run_stop};
ghost use Rattle.entry_spec.specs.Call.{call_of, call_image, call_answers, room_stop, room_image, fresh_stop, fresh_image, length_for};
ghost use Rattle.sheet_spec.specs.Lookup.{source_of, place_of, refusal_of, sheet_number, start_number, size_number};
ghost use Rattle.sheet_spec.specs.Compaction.{compacted_of, memory_of, stop_of, written_of};

use clock_command::{Lookup, Patterns, Table};
use clock_spec::Chip;
use refusal::Refusal;
use units::{Micros, ViaTicks};

pub mod keyboard_calls;
pub mod transaction_calls;

// The numbers of cells that a machine can be made with.
const FIRST: u32 = clock_command::FIRST_CELLS as u32;

const LATER: u32 = clock_command::ALL_CELLS as u32;

/// The length in bytes of an image of a machine with so many cells; 0 where there is no such machine.
#[tactic(auto, unfolding(entry_spec::specs::Call::length_for))]
pub fn swarmtempo_image_len(cells: u32) -> u64
    ensures { result ≡ length_for cells }
{
    if cells == FIRST {
        return image_layout::image_length(Chip::First) as u64;
    }
    if cells == LATER {
        return image_layout::image_length(Chip::Later) as u64;
    }
    0
}

// Writes the fresh machine's image, by its chip. 0, or 6 where the room is shorter than an image.
#[tactic(auto, unfolding(entry_spec::specs::Call::room_image, entry_spec::specs::Call::room_stop))]
fn fresh_image(image: &mut [u8], chip: Chip) -> u8
    ensures value { result ≡ room_stop chip image.old }
    ensures image_after { image.new ≡ room_image chip image.old }
{
    let n = image_layout::image_length(chip);
    if image.len() < n {
        return u8::from(Refusal::NoRoom);
    }
    image::save(&mut image[..n], machine::fresh(chip));
    0
}

/// Writes the fresh machine's image. 0; 5 where there is no machine with so many cells; 6 where the room is shorter than an image.
#[tactic(auto, unfolding(entry_spec::specs::Call::fresh_image, entry_spec::specs::Call::fresh_stop))]
pub fn swarmtempo_fresh(image: &mut [u8], cells: u32) -> u8
    ensures value { result ≡ fresh_stop cells image.old }
    ensures image_after { image.new ≡ fresh_image cells image.old }
{
    if cells == FIRST {
        return fresh_image(image, Chip::First);
    }
    if cells == LATER {
        return fresh_image(image, Chip::Later);
    }
    u8::from(Refusal::OutOfRange)
}

// Runs the list from the image's state by one way to look commands up, and leaves the image of the state reached. The stop number: 0, 1 or 6; 7 where no accepted state has
// this image. The last two clauses: the state of the image left is the state reached, so that call after call is one run; and demand 3, from the image's state.
fn run_by<L: Lookup>(
    image: &mut [u8],
    list: &[u8],
    answers: &mut [u8],
    consumed: &mut u64,
    written: &mut u64,
) -> u8
    ensures value { result ≡ run_stop (call_of image.old list.now (length answers.old)).stop }
    ensures consumed_after { consumed.new ≡ (call_of image.old list.now (length answers.old)).consumed }
    ensures written_after { written.new ≡ length (call_of image.old list.now (length answers.old)).answers }
    ensures image_after { image.new ≡ call_image image.old list.now (length answers.old) }
    ensures answers_after { answers.new ≡ call_answers image.old list.now answers.old }
    ensures validity_kept { valid_image image.new ≡ valid_image image.old }
    ensures state_reached { machine_of image.new ≡ (call_of image.old list.now (length answers.old)).machine }
    ensures run3 { valid_image image.old ≡ true → Run3 (machine_of image.old) list.now (length answers.old) (machine_of image.new) }
{
    *consumed = 0;
    *written = 0;
    if !image::exact(image) {
        return refusal::stop_number(Some(Refusal::NotAccepted));
    }
    let mut machine = image::load(image);
    if !machine::accepted_cleared(&machine) {
        return refusal::stop_number(Some(Refusal::NotAccepted));
    }
    let ran = run::run_accepted::<L>(&mut machine, list, answers);
    *consumed = ran.consumed as u64;
    *written = ran.written as u64;
    image::save(image, machine);
    refusal::stop_number(ran.stop)
}

/// The same for shells, by the table.
pub fn swarmtempo_run(
    image: &mut [u8],
    list: &[u8],
    answers: &mut [u8],
    consumed: &mut u64,
    written: &mut u64,
) -> u8
    ensures value { result ≡ run_stop (call_of image.old list.now (length answers.old)).stop }
    ensures consumed_after { consumed.new ≡ (call_of image.old list.now (length answers.old)).consumed }
    ensures written_after { written.new ≡ length (call_of image.old list.now (length answers.old)).answers }
    ensures image_after { image.new ≡ call_image image.old list.now (length answers.old) }
    ensures answers_after { answers.new ≡ call_answers image.old list.now answers.old }
    ensures validity_kept { valid_image image.new ≡ valid_image image.old }
    ensures state_reached { machine_of image.new ≡ (call_of image.old list.now (length answers.old)).machine }
    ensures run3 { valid_image image.old ≡ true → Run3 (machine_of image.old) list.now (length answers.old) (machine_of image.new) }
{
    run_by::<Table>(image, list, answers, consumed, written)
}

/// The same by the plain engine, so that field staff can see for themselves that nothing differs.
pub fn swarmtempo_run_plain(
    image: &mut [u8],
    list: &[u8],
    answers: &mut [u8],
    consumed: &mut u64,
    written: &mut u64,
) -> u8
    ensures value { result ≡ run_stop (call_of image.old list.now (length answers.old)).stop }
    ensures consumed_after { consumed.new ≡ (call_of image.old list.now (length answers.old)).consumed }
    ensures written_after { written.new ≡ length (call_of image.old list.now (length answers.old)).answers }
    ensures image_after { image.new ≡ call_image image.old list.now (length answers.old) }
    ensures answers_after { answers.new ≡ call_answers image.old list.now answers.old }
    ensures validity_kept { valid_image image.new ≡ valid_image image.old }
    ensures state_reached { machine_of image.new ≡ (call_of image.old list.now (length answers.old)).machine }
    ensures run3 { valid_image image.old ≡ true → Run3 (machine_of image.old) list.now (length answers.old) (machine_of image.new) }
{
    run_by::<Patterns>(image, list, answers, consumed, written)
}

/// Microseconds in VIA ticks, rounded up.
pub fn swarmtempo_ticks_of_micros(micros: u32) -> u32
    ensures { result ≡ ticks_of micros }
{
    ViaTicks::from(Micros(micros)).0
}

/// Where a setting's bytes stand: in the bench sheet (1) or the house sheet (2), from `start` on, `size` of them. 0, or 1 where either sheet is
/// broken; `sheet`, `start` and `size` are 0 then, and where the setting is in neither.
pub fn swarmtempo_sheet_get(
    bench: &[u8],
    house: &[u8],
    setting: u16,
    sheet: &mut u8,
    start: &mut u64,
    size: &mut u64,
) -> u8
    ensures value { result ≡ refusal_of (source_of bench.now house.now setting) }
    ensures sheet_after { sheet.new ≡ sheet_number (source_of bench.now house.now setting) }
    ensures start_after { start.new ≡ start_number (place_of bench.now house.now setting) }
    ensures size_after { size.new ≡ size_number (place_of bench.now house.now setting) }
{
    sheet_entry::get(bench, house, setting, sheet, start, size)
}

/// Writes a sheet's counting records, one for each setting, in their old order. 0, or 1 where the sheet is broken, then 6 where the room is too
/// short; neither writes anything, and `written` is 0.
pub fn swarmtempo_sheet_compact(sheet: &[u8], out: &mut [u8], written: &mut u64) -> u8
    ensures value { result ≡ stop_of (compacted_of sheet.now (length out.old)) }
    ensures written_after { written.new ≡ written_of (compacted_of sheet.now (length out.old)) }
    ensures out_after { out.new ≡ memory_of sheet.now out.old }
{
    sheet_entry::compact(sheet, out, written)
}

/// Turns an old capture over into `out`. 0; 1 where a record refused with 1 ended the work, what comes before it being written; 6 where the room is too
/// small, and then nothing is written and both numbers are 0. `count` is the number of retired SN items replaced with no DI after them.
pub fn swarmtempo_convert(list: &[u8], out: &mut [u8], written: &mut u64, count: &mut u64) -> u8
    ensures value { result ≡ refusal_number (converted_of list.now (length out.old)) }
    ensures written_after { written.new ≡ (converted_of list.now (length out.old)).written }
    ensures count_after { count.new ≡ (converted_of list.now (length out.old)).count }
    ensures out_after { out.new ≡ output_of list.now out.old }
{
    let converted = capture::convert(list, out);
    *written = converted.written as u64;
    *count = converted.count as u64;
    refusal::stop_number(converted.refusal)
}
