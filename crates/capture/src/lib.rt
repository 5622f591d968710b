//! An old capture turned over: measured first, then written, all of it or nothing.
#![tactic(auto)]

ghost use Rattle.std.specs.Prelude.{◌≡◌, ◌++◌, ◌≤◌, ◌<◌, length, drop};
ghost use Rattle.std.specs.Option.{MatchOption};
ghost use Rattle.capture_spec.specs.Convert.{turned_of, converted_of, output_of};

use capture_record::Records;
use capture_spec::Converted;
use refusal::Refusal;

/// What a conversion into so much room gives back; nothing where the room is too little.
fn measure(list: &[u8], room: usize) -> Option<Converted>
    ensures { MatchOption result (room < length (turned_of list.now)) (λ converted. (length (turned_of list.now) ≤ room) × (converted ≡ converted_of list.now room)) }
{
    let mut levels = capture_record::first();
    let mut written = 0;
    let mut count = 0;
    for row in Records::new(list) {
        let Ok(row) = row else {
            return Some(Converted {
                refusal: Some(Refusal::CutRecord),
                written,
                count,
            });
        };
        let size = capture_part::size(levels, row);
        if room - written < size {
            return None;
        }
        written += size;
        count += capture_part::lone(levels, row);
        levels = capture_record::next(levels, row);
    }
    Some(Converted {
        refusal: None,
        written,
        count,
    })
}

/// Writes all of it.
// Measured first and written then, by two walks: with too little room nothing is written. One walk with a step as its parameter would be no plainer.
fn write(list: &[u8], out: &mut [u8])
    requires { length (turned_of list.now) ≤ length out.old }
    ensures { out.new ≡ turned_of list.now ++ drop (length (turned_of list.now)) out.old }
{
    let mut levels = capture_record::first();
    let mut at = 0;
    for row in Records::new(list) {
        let Ok(row) = row else {
            return;
        };
        let size = capture_part::size(levels, row);
        capture_part::put(out, at, levels, row);
        at += size;
        levels = capture_record::next(levels, row);
    }
}

/// Turns the capture over into `out`: the bytes written, the valid retired SN items with no DI after them, and refusal 1 where a cut record ended the
/// work; refusal 6 where the room is too little, and then nothing is written.
pub fn convert(list: &[u8], out: &mut [u8]) -> Converted
    ensures value { result ≡ converted_of list.now (length out.old) }
    ensures out_after { out.new ≡ output_of list.now out.old }
{
    let Some(converted) = measure(list, out.len()) else {
        return Converted {
            refusal: Some(Refusal::NoRoom),
            written: 0,
            count: 0,
        };
    };
    write(list, out);
    converted
}
