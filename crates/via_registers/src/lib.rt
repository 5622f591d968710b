//! The VIA's sixteen registers, read.
#![tactic(auto)]

ghost use Rattle.std.specs.Prelude.{◌≡◌};
ghost use Rattle.via.specs.Via.{port_level};
ghost use Rattle.via.specs.Registers.{flags_byte, value_read, flags_read};
ghost use Rattle.via.specs.Shift.{pulses_accessed};

use via::{Inputs, Via};

/// A port's levels: the output bit where the direction is 1, else the input.
#[tactic(auto, unfolding(via::specs::Via::port_level))]
pub fn port(out: u8, direction: u8, input: u8) -> u8
    ensures { result ≡ port_level out direction input }
{
    out & direction | input & !direction
}

/// The flags, with bit 7 set when an enabled flag is.
#[tactic(auto, unfolding(via::specs::Registers::flags_byte))]
fn flags_byte(via: Via) -> u8
    ensures { result ≡ flags_byte via }
{
    let flags = via.flags % 128;
    if via_flags::asks(via) {
        flags + 128
    } else {
        flags
    }
}

/// The value that reading a register gives. A register above 15 gives what 15 gives.
#[tactic(auto, unfolding(via::specs::Registers::flags_byte, via::specs::Registers::value_read))]
pub fn value_read(via: Via, register: u8, inputs: Inputs) -> u8
    ensures { result ≡ value_read register inputs via }
{
    match register {
        0 => port(via.ports.outb, via.ports.dirb, inputs.b),
        1 => port(via.ports.outa, via.ports.dira, inputs.a),
        2 => via.ports.dirb,
        3 => via.ports.dira,
        4 => via.t1.counter.to_le_bytes()[0],
        5 => via.t1.counter.to_le_bytes()[1],
        6 => via.t1.low,
        7 => via.t1.high,
        8 => via.t2.counter.to_le_bytes()[0],
        9 => via.t2.counter.to_le_bytes()[1],
        10 => via.sr,
        11 => via.acr,
        12 => via.pcr,
        13 => flags_byte(via),
        14 => via.enables % 128 + 128,
        _ => port(via.ports.outa, via.ports.dira, inputs.a),
    }
}

/// The flags after reading a register.
#[tactic(auto, unfolding(via::specs::Registers::flags_read))]
pub fn flags_read(via: Via, register: u8) -> u8
    ensures { result ≡ flags_read register via }
{
    match register {
        1 => via.flags & !via_bits::port_a_flags(via.pcr),
        4 => via.flags & !64,
        8 => via.flags & !32,
        10 => via.flags & !4,
        _ => via.flags,
    }
}

/// The count of pulses after an access to a register: register 10 starts it anew.
#[tactic(auto, unfolding(via::specs::Shift::pulses_accessed))]
pub fn pulses_accessed(register: u8, pulses: u8) -> u8
    ensures { result ≡ pulses_accessed register pulses }
{
    if register == 10 { 0 } else { pulses }
}
