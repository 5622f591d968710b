//! The tool that writes a sheet's counting records, one for each setting, in their old order (W-213). It walks the sheet four times, whatever the number
//! of its records: for the refusal, for a table of where each setting's counting record stands, to measure and to write.
#![tactic(auto)]

ghost use Rattle.std.specs.Prelude.{◌≡◌, ◌++◌, ◌<◌, ◌≤◌, true, false, length, get_or, drop, replicate, eqb, OnOk, IfErr};
ghost use Rattle.refusal.specs.declared.Refusal.TheVariants.{CutRecord};
ghost use Rattle.sheet_spec.specs.Records.{sheet_of, is_broken};
ghost use Rattle.sheet_spec.specs.Counting.{setting_of, version_of};
ghost use Rattle.sheet_spec.specs.Compaction.{compact_of, compacted_of, memory_of};
ghost use Rattle.sheet_compact.specs.Table.{noted, Table};

use refusal::Refusal;
use sheet_record::{Record, Records};

/// The setting numbers: 0 to 65,535. The two tables of them are 590 kB of stack, whatever the sheet: their memory is fixed, and a record finds its place at once.
const SETTINGS: usize = 65536;

/// Refusal 1 where the sheet is broken.
// A walk of its own, before the tables are cleared: of a broken sheet nothing is noted.
fn check(sheet: &[u8]) -> Result<(), Refusal>
    ensures ok { OnOk result (is_broken (sheet_of sheet.now) ≡ false) }
    ensures err { IfErr result (λ e. (is_broken (sheet_of sheet.now) ≡ true) × (e ≡ CutRecord)) }
{
    for record in Records::new(sheet) {
        record?;
    }
    Ok(())
}

/// Notes a record's version and where its bytes start, where the version noted of its setting is no higher.
// Two tables: the versions' 64 KiB stay near the processor, where those in the sheet are each a read far off, and a struct of both would take 1 MiB.
#[tactic(auto, unfolding(crate::specs::Table::noted))]
fn note(record: &Record, versions: &mut [u8; SETTINGS], starts: &mut [usize; SETTINGS])
    ensures versions_after { versions.new ≡ noted record.now.bytes.now versions.old (version_of record.now.bytes.now) versions.old }
    ensures starts_after { starts.new ≡ noted record.now.bytes.now versions.old record.now.start starts.old }
    ensures setting { setting_of record.now.bytes.now < 65536 }
{
    let setting = record.setting() as usize;
    let version = record.version();
    if versions[setting] <= version {
        versions[setting] = version;
        starts[setting] = record.start;
    }
}

/// Where the bytes of each setting's counting record start, 0 where there is none.
fn tabulate(sheet: &[u8], versions: &mut [u8; SETTINGS], starts: &mut [usize; SETTINGS])
    requires versions { versions.old ≡ replicate 65536 0 }
    requires starts { starts.old ≡ replicate 65536 0 }
    ensures { Table starts.new sheet.now }
{
    for record in Records::new(sheet) {
        let Ok(record) = record else {
            return;
        };
        note(&record, versions, starts);
    }
}

/// Whether a record of the sheet is its setting's counting record.
fn counts(record: &Record, starts: &[usize; SETTINGS]) -> bool
    ensures counts { result ≡ eqb (get_or starts.now (setting_of record.now.bytes.now) 0) record.now.start }
    ensures setting { setting_of record.now.bytes.now < 65536 }
{
    starts[record.setting() as usize] == record.start
}

/// How many bytes the counting records have.
fn measure(sheet: &[u8], starts: &[usize; SETTINGS]) -> usize
    requires { Table starts.now sheet.now }
    ensures { result ≡ length (compact_of sheet.now) }
{
    let mut size = 0;
    for record in Records::new(sheet) {
        let Ok(record) = record else {
            return size;
        };
        if counts(&record, starts) {
            size += record.bytes.len();
        }
    }
    size
}

/// Writes the counting records.
// Measured first and written then, by two walks: with too little room nothing is written. One walk with a step as its parameter would be no plainer.
fn write(sheet: &[u8], starts: &[usize; SETTINGS], out: &mut [u8])
    requires table { Table starts.now sheet.now }
    requires room { length (compact_of sheet.now) ≤ length out.old }
    ensures { out.new ≡ compact_of sheet.now ++ drop (length (compact_of sheet.now)) out.old }
{
    let mut at = 0;
    for record in Records::new(sheet) {
        let Ok(record) = record else {
            return;
        };
        if counts(&record, starts) {
            octets::copy(out, at, record.bytes);
            at += record.bytes.len();
        }
    }
}

/// Writes a sheet's counting records, one for each setting, in their old order: the number of bytes written; refusal 1 where the sheet is broken, then
/// 6 where the room is too little, and then nothing is written.
pub fn compact(sheet: &[u8], out: &mut [u8]) -> Result<usize, Refusal>
    ensures value { result ≡ compacted_of sheet.now (length out.old) }
    ensures out_after { out.new ≡ memory_of sheet.now out.old }
{
    check(sheet)?;
    let mut versions = [0; SETTINGS];
    let mut starts = [0; SETTINGS];
    tabulate(sheet, &mut versions, &mut starts);
    let size = measure(sheet, &starts);
    if out.len() < size {
        return Err(Refusal::NoRoom);
    }
    write(sheet, &starts, out);
    Ok(size)
}
