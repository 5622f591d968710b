//! The functions of libswarmtempo.a, as host/include/swarmtempo.h declares them. Each calls the function of the same name in the crate swarmtempo and promises what
//! that one does: a crate is a library or exports to C, not both.
#![tactic(auto)]

ghost use Rattle.std.specs.Prelude.{◌≡◌, length, true};
ghost use Rattle.image_spec.specs.Image.{machine_of, valid_image};
ghost use Rattle.demand3.specs.Runs.{Run3};
ghost use Rattle.units.specs.Units.{ticks_of};
ghost use Rattle.capture_spec.specs.Convert.{converted_of, output_of, refusal_number};
ghost use Rattle.refusal.specs.Numbers.{stop_of as run_stop};
ghost use Rattle.entry_spec.specs.Call.{call_of, call_image, call_answers, fresh_stop, fresh_image, length_for};
ghost use Rattle.sheet_spec.specs.Lookup.{source_of, place_of, refusal_of, sheet_number, start_number, size_number};
ghost use Rattle.sheet_spec.specs.Compaction.{compacted_of, memory_of, stop_of, written_of};

mod keyboard_calls;
mod transaction_calls;

/// The length in bytes of an image of a machine with so many cells; 0 where there is no such machine.
#[unsafe(no_mangle)]
pub extern "C" fn swarmtempo_image_len(cells: u32) -> u64
    ensures { result ≡ length_for cells }
{
    swarmtempo::swarmtempo_image_len(cells)
}

/// Writes the fresh machine's image. 0; 5 where there is no machine with so many cells; 6 where the room is shorter than an image.
#[unsafe(no_mangle)]
pub extern "C" fn swarmtempo_fresh(image: &mut [u8], cells: u32) -> u8
    ensures value { result ≡ fresh_stop cells image.old }
    ensures image_after { image.new ≡ fresh_image cells image.old }
{
    swarmtempo::swarmtempo_fresh(image, cells)
}

/// Runs the list from the image's state, by the table, and leaves the image of the state reached. The stop number: 0, 1 or 6; 7 where no accepted state has
/// this image. The last two clauses: the state of the image left is the state reached, so that call after call is one run; and demand 3, from the image's state.
#[unsafe(no_mangle)]
pub extern "C" fn swarmtempo_run(
    image: &mut [u8],
    list: &[u8],
    answers: &mut [u8],
    consumed: &mut u64,
    written: &mut u64,
) -> u8
    ensures value { result ≡ run_stop (call_of image.old list.now (length answers.old)).stop }
    ensures consumed_after { consumed.new ≡ (call_of image.old list.now (length answers.old)).consumed }
    ensures written_after { written.new ≡ length (call_of image.old list.now (length answers.old)).answers }
    ensures image_after { image.new ≡ call_image image.old list.now (length answers.old) }
    ensures answers_after { answers.new ≡ call_answers image.old list.now answers.old }
    ensures validity_kept { valid_image image.new ≡ valid_image image.old }
    ensures state_reached { machine_of image.new ≡ (call_of image.old list.now (length answers.old)).machine }
    ensures run3 { valid_image image.old ≡ true → Run3 (machine_of image.old) list.now (length answers.old) (machine_of image.new) }
{
    swarmtempo::swarmtempo_run(image, list, answers, consumed, written)
}

/// The same by the plain engine, so that field staff can see for themselves that nothing differs.
#[unsafe(no_mangle)]
pub extern "C" fn swarmtempo_run_plain(
    image: &mut [u8],
    list: &[u8],
    answers: &mut [u8],
    consumed: &mut u64,
    written: &mut u64,
) -> u8
    ensures value { result ≡ run_stop (call_of image.old list.now (length answers.old)).stop }
    ensures consumed_after { consumed.new ≡ (call_of image.old list.now (length answers.old)).consumed }
    ensures written_after { written.new ≡ length (call_of image.old list.now (length answers.old)).answers }
    ensures image_after { image.new ≡ call_image image.old list.now (length answers.old) }
    ensures answers_after { answers.new ≡ call_answers image.old list.now answers.old }
    ensures validity_kept { valid_image image.new ≡ valid_image image.old }
    ensures state_reached { machine_of image.new ≡ (call_of image.old list.now (length answers.old)).machine }
    ensures run3 { valid_image image.old ≡ true → Run3 (machine_of image.old) list.now (length answers.old) (machine_of image.new) }
{
    swarmtempo::swarmtempo_run_plain(image, list, answers, consumed, written)
}

/// Microseconds in VIA ticks, rounded up.
#[unsafe(no_mangle)]
pub extern "C" fn swarmtempo_ticks_of_micros(micros: u32) -> u32
    ensures { result ≡ ticks_of micros }
{
    swarmtempo::swarmtempo_ticks_of_micros(micros)
}

/// Where a setting's bytes stand: in the bench sheet (1) or the house sheet (2), from `start` on, `size` of them. 0, or 1 where either sheet is
/// broken; `sheet`, `start` and `size` are 0 then, and where the setting is in neither.
#[unsafe(no_mangle)]
pub extern "C" fn swarmtempo_sheet_get(
    bench: &[u8],
    house: &[u8],
    setting: u16,
    sheet: &mut u8,
    start: &mut u64,
    size: &mut u64,
) -> u8
    ensures value { result ≡ refusal_of (source_of bench.now house.now setting) }
    ensures sheet_after { sheet.new ≡ sheet_number (source_of bench.now house.now setting) }
    ensures start_after { start.new ≡ start_number (place_of bench.now house.now setting) }
    ensures size_after { size.new ≡ size_number (place_of bench.now house.now setting) }
{
    swarmtempo::swarmtempo_sheet_get(bench, house, setting, sheet, start, size)
}

/// Writes a sheet's counting records, one for each setting, in their old order. 0, or 1 where the sheet is broken, then 6 where the room is too
/// short; neither writes anything, and `written` is 0.
#[unsafe(no_mangle)]
pub extern "C" fn swarmtempo_sheet_compact(sheet: &[u8], out: &mut [u8], written: &mut u64) -> u8
    ensures value { result ≡ stop_of (compacted_of sheet.now (length out.old)) }
    ensures written_after { written.new ≡ written_of (compacted_of sheet.now (length out.old)) }
    ensures out_after { out.new ≡ memory_of sheet.now out.old }
{
    swarmtempo::swarmtempo_sheet_compact(sheet, out, written)
}

/// Turns an old capture over into `out`. 0; 1 where a record refused with 1 ended the work, what comes before it being written; 6 where the room is too
/// small, and then nothing is written and both numbers are 0. `count` is the number of retired SN items replaced with no DI after them.
#[unsafe(no_mangle)]
pub extern "C" fn swarmtempo_convert(
    list: &[u8],
    out: &mut [u8],
    written: &mut u64,
    count: &mut u64,
) -> u8
    ensures value { result ≡ refusal_number (converted_of list.now (length out.old)) }
    ensures written_after { written.new ≡ (converted_of list.now (length out.old)).written }
    ensures count_after { count.new ≡ (converted_of list.now (length out.old)).count }
    ensures out_after { out.new ≡ output_of list.now out.old }
{
    swarmtempo::swarmtempo_convert(list, out, written, count)
}
