//! House sheet and bench sheet (W-213): a setting's bytes, and where they stand. Each look-up is one pass over each sheet.
#![tactic(auto)]

ghost use Rattle.std.specs.Prelude.{◌≡◌};
ghost use Rattle.sheet_spec.specs.Records.{sheet_of};
ghost use Rattle.sheet_spec.specs.Lookup.{search_of, source_of, part_of, place_of};

use refusal::Refusal;
use sheet_record::{Record, Records};
use sheet_spec::{Part, Place, Source};

/// What one sheet says of a setting: the part with its bytes, from the record that counts; nothing where it is not set; refusal 1 where the sheet is
/// broken.
pub fn find(sheet: &[u8], setting: u16) -> Result<Option<Part>, Refusal>
    ensures { result ≡ search_of (sheet_of sheet.now) setting }
{
    let mut counting: Option<Record> = None;
    for record in Records::new(sheet) {
        let record = record?;
        let version = match counting {
            Some(earlier) => earlier.version(),
            None => 0,
        };
        if record.beats(setting, version) {
            counting = Some(record);
        }
    }
    let Some(record) = counting else {
        return Ok(None);
    };
    Ok(Some(Part {
        start: record.start,
        size: record.bytes.len() - 7,
    }))
}

/// Where a setting's bytes stand, the bench sheet before the house sheet; nothing where neither has it; refusal 1 where either is broken.
// Two sheets and a setting, as the C function is called: a struct of the three would be made for one call, and taken apart in it.
pub fn place(bench: &[u8], house: &[u8], setting: u16) -> Result<Option<Place>, Refusal>
    ensures { result ≡ place_of bench.now house.now setting }
{
    let in_bench = find(bench, setting)?;
    let in_house = find(house, setting)?;
    Ok(match (in_bench, in_house) {
        (Some(Part { start, size }), _) => Some(Place {
            source: Source::Bench,
            start,
            size,
        }),
        (None, Some(Part { start, size })) => Some(Place {
            source: Source::House,
            start,
            size,
        }),
        (None, None) => None,
    })
}

/// Which sheet a setting's bytes come from; none where neither has it; refusal 1 where either is broken.
pub fn which(bench: &[u8], house: &[u8], setting: u16) -> Result<Option<Source>, Refusal>
    ensures { result ≡ source_of bench.now house.now setting }
{
    let Some(place) = place(bench, house, setting)? else {
        return Ok(None);
    };
    Ok(Some(place.source))
}

/// A setting's bytes, a part of one of the two sheets; empty where neither has it, and where either is broken.
pub fn lookup<'a>(bench: &'a [u8], house: &'a [u8], setting: u16) -> &'a [u8]
    ensures { result.now ≡ part_of bench.now house.now setting }
{
    match place(bench, house, setting) {
        Ok(Some(place)) => match place.source {
            Source::Bench => &bench[place.start..place.start + place.size],
            Source::House => &house[place.start..place.start + place.size],
        },
        Ok(None) => &[],
        Err(_) => &[],
    }
}
