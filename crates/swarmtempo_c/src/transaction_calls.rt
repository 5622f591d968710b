//! The writer of clock transactions with C linkage.
ghost use Rattle.std.specs.Prelude.{◌≡◌, length};
ghost use Rattle.transaction_entry.specs.Call.{request_of, result_of, output_of, stop_of, written_of, CallDoes};

/// Writes the items of one transaction with the clock of the image's state into `out`; `written` is their number of bytes. Asked for by 1 (write a cell), 2
/// (read a cell), 3 (write a seconds byte), 4 (read a seconds byte) or 5 (write protect), the number of the cell or seconds byte, and the byte to write. 0;
/// 7 where no accepted state has this image; 5 where the chip has no such cell or seconds byte, or nothing is asked for by this number; 10 where enable is
/// down; 6 where the room is too short. These write nothing, and `written` is 0. The last clause: a call of swarmtempo_run with this image, what was written and
/// room for its answers does what was asked for.
#[unsafe(no_mangle)]
pub extern "C" fn swarmtempo_transaction(
    image: &[u8],
    ask: u8,
    number: u32,
    value: u8,
    out: &mut [u8],
    written: &mut u64,
) -> u8
    ensures value { result ≡ stop_of (result_of image.now (request_of ask number value) (length out.old)) }
    ensures written_after { written.new ≡ written_of (result_of image.now (request_of ask number value) (length out.old)) }
    ensures out_after { out.new ≡ output_of image.now (request_of ask number value) out.old }
    ensures call_does { result ≡ 0 → CallDoes image.now (request_of ask number value) written.new out.new }
{
    swarmtempo::transaction_calls::swarmtempo_transaction(image, ask, number, value, out, written)
}
