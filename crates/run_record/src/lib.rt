//! One whole record: decoded, judged by the state, carried out and answered.
#![tactic(auto)]

ghost use Rattle.std.specs.Prelude.{◌≡◌, ◌≤◌, length, true};
ghost use Rattle.machine_spec.specs.declared.Machine.{Machine};
ghost use Rattle.machine_spec.specs.Machine.{accepted_of};
ghost use Rattle.run_spec.specs.Turn.{turn_of};
ghost use Rattle.item_decode.specs.Values.{values_in};
ghost use Rattle.run_record.specs.Judged.{turn_judged, JudgedInRange};

use clock_command::Lookup;
use disk_spec::Drives;
use item_spec::{Answer, Item};
use machine_spec::Machine;
use refusal::Refusal;

/// The item of a record's bytes after the length, or its refusal by the bytes or by a state with these drives.
#[tactic(auto, unfolding(crate::specs::Judged::turn_judged))]
#[inline(always)]
pub fn judge(drives: Drives, bytes: &[u8]) -> Result<Item, Refusal>
    requires { 2 ≤ length bytes.now }
    ensures turn { (m : Machine) → m.drives ≡ drives → turn_of m bytes.now ≡ turn_judged m (values_in bytes.now) result }
    ensures judged_in_range { JudgedInRange (values_in bytes.now) result }
{
    let item = item_decode::decode(bytes)?;
    match machine_answer::refuses(drives, item) {
        Some(refusal) => Err(refusal),
        None => Ok(item),
    }
}

/// Carries out the record, or refuses it: its answer.
pub fn turn<L: Lookup>(machine: &mut Machine, bytes: &[u8]) -> Answer
    requires long { 2 ≤ length bytes.now }
    requires accepted { accepted_of machine.old ≡ true }
    ensures answer { result ≡ (turn_of machine.old bytes.now).answer }
    ensures machine_after { machine.new ≡ (turn_of machine.old bytes.now).machine }
{
    let item = judge(machine.drives, bytes)?;
    let values = &bytes[item_decode::first_value(bytes)..];
    let value = machine_act::step::<L>(machine, item, values);
    Ok(machine_answer::answer(machine, value))
}
