//! A writer of clock transactions: request W-209.
#![tactic(auto)]

ghost use Rattle.std.specs.Prelude.{◌≡◌, length, true};
ghost use Rattle.transaction_spec.specs.Asked.{place_in_range};
ghost use Rattle.transaction_writer.specs.Writer.{plan_of, writer_answer, buffer_after};

use machine_spec::Machine;
use refusal::Refusal;
use transaction_plan::Plan;
use transaction_spec::Ask;

/// What the records are made of.
#[tactic(auto, unfolding(crate::specs::Writer::plan_of))]
fn plan_of(machine: &Machine, ask: Ask) -> Plan
    requires { place_in_range ask ≡ true }
    ensures { result ≡ plan_of machine.now ask }
{
    let ports = machine.via.ports;
    Plan {
        outputs: ports.outb,
        directions: ports.dirb,
        command: ask.command(),
        second: ask.second(),
        byte: ask.byte(),
    }
}

/// Writes the transaction, and gives its length in bytes; a refusal writes nothing.
#[tactic(auto, unfolding(crate::specs::Writer::writer_answer, crate::specs::Writer::buffer_after))]
pub fn write_transaction(machine: &Machine, ask: Ask, out: &mut [u8]) -> Result<usize, Refusal>
    ensures value { result ≡ writer_answer machine.now ask (length out.old) }
    ensures out_after { out.new ≡ buffer_after machine.now ask out.old }
{
    if !machine::accepted(machine) {
        return Err(Refusal::NotAccepted);
    }
    if !ask.is_on(machine.clock.store.chip) {
        return Err(Refusal::OutOfRange);
    }
    if !machine_pins::wires(machine).enable {
        return Err(Refusal::TransactionOpen);
    }
    let size = ask.size();
    if out.len() < size {
        return Err(Refusal::NoRoom);
    }
    plan_of(machine, ask).write(ask.count(), out);
    Ok(size)
}
