//! Sheets of settings for C and Rust shells: numbers and byte slices. The crate swarmtempo_c exports these functions.
#![tactic(auto)]

ghost use Rattle.std.specs.Prelude.{◌≡◌, length};
ghost use Rattle.sheet_spec.specs.Lookup.{source_of, place_of, refusal_of, sheet_number, start_number, size_number};
ghost use Rattle.sheet_spec.specs.Compaction.{compacted_of, memory_of, stop_of, written_of};

// The parameters are those of the C functions.

/// Where a setting's bytes stand: in the bench sheet (1) or the house sheet (2), from `start` on, `size` of them; 0 where it is not set. 0, or
/// refusal 1, then too with no sheet and no bytes.
pub fn get(
    bench: &[u8],
    house: &[u8],
    setting: u16,
    sheet: &mut u8,
    start: &mut u64,
    size: &mut u64,
) -> u8
    ensures value { result ≡ refusal_of (source_of bench.now house.now setting) }
    ensures sheet_after { sheet.new ≡ sheet_number (source_of bench.now house.now setting) }
    ensures start_after { start.new ≡ start_number (place_of bench.now house.now setting) }
    ensures size_after { size.new ≡ size_number (place_of bench.now house.now setting) }
{
    *sheet = 0;
    *start = 0;
    *size = 0;
    match sheet::place(bench, house, setting) {
        Ok(Some(place)) => {
            *sheet = u8::from(place.source);
            *start = place.start as u64;
            *size = place.size as u64;
            0
        }
        Ok(None) => 0,
        Err(refusal) => u8::from(refusal),
    }
}

/// Writes a sheet's counting records, and how many bytes they have. 0, or refusal 1 or 6 with nothing written.
#[tactic(auto, unfolding(sheet_spec::specs::Compaction::stop_of, sheet_spec::specs::Compaction::written_of))]
pub fn compact(sheet: &[u8], out: &mut [u8], written: &mut u64) -> u8
    ensures value { result ≡ stop_of (compacted_of sheet.now (length out.old)) }
    ensures written_after { written.new ≡ written_of (compacted_of sheet.now (length out.old)) }
    ensures out_after { out.new ≡ memory_of sheet.now out.old }
{
    let compacted = sheet_compact::compact(sheet, out);
    *written = compacted.unwrap_or(0) as u64;
    refusal::stop_number(compacted.err())
}
