//! The keyboard's functions with C linkage.
ghost use Rattle.std.specs.Prelude.{◌≡◌};
ghost use Rattle.keyboard.specs.Numbers.{refusal_of, byte_of};
ghost use Rattle.keyboard.specs.Steps.{command_of, key_of, wait_of};
ghost use Rattle.keyboard_image.specs.Image.{image_length};
ghost use Rattle.keyboard_entry.specs.Calls.{fresh_stop, fresh_image, answered_of, call_of, call_image};

/// The length of a keyboard's image in bytes.
#[unsafe(no_mangle)]
pub extern "C" fn swarmtempo_keyboard_len() -> u64
    ensures { result ≡ image_length }
{
    swarmtempo::keyboard_calls::swarmtempo_keyboard_len()
}

/// Writes the image of a keyboard that was just made, with this model byte. 0, or 6 where the room is shorter than an image.
#[unsafe(no_mangle)]
pub extern "C" fn swarmtempo_keyboard_fresh(image: &mut [u8], model: u8) -> u8
    ensures value { result ≡ fresh_stop image.old }
    ensures image_after { image.new ≡ fresh_image model image.old }
{
    swarmtempo::keyboard_calls::swarmtempo_keyboard_fresh(image, model)
}

/// A command byte. 0, or 7 where no accepted keyboard has this image.
#[unsafe(no_mangle)]
pub extern "C" fn swarmtempo_keyboard_command(
    image: &mut [u8],
    byte: u8,
    answered: &mut u8,
    answer: &mut u8,
) -> u8
    ensures value { result ≡ refusal_of (call_of (command_of byte) image.old).response }
    ensures answered_after { answered.new ≡ answered_of (call_of (command_of byte) image.old).response }
    ensures answer_after { answer.new ≡ byte_of (call_of (command_of byte) image.old).response }
    ensures image_after { image.new ≡ call_image (command_of byte) image.old }
{
    swarmtempo::keyboard_calls::swarmtempo_keyboard_command(image, byte, answered, answer)
}

/// A key code. 0, 7, or 11 where eight codes are held already.
#[unsafe(no_mangle)]
pub extern "C" fn swarmtempo_keyboard_key(
    image: &mut [u8],
    code: u8,
    answered: &mut u8,
    answer: &mut u8,
) -> u8
    ensures value { result ≡ refusal_of (call_of (key_of code) image.old).response }
    ensures answered_after { answered.new ≡ answered_of (call_of (key_of code) image.old).response }
    ensures answer_after { answer.new ≡ byte_of (call_of (key_of code) image.old).response }
    ensures image_after { image.new ≡ call_image (key_of code) image.old }
{
    swarmtempo::keyboard_calls::swarmtempo_keyboard_key(image, code, answered, answer)
}

/// A wait in VIA ticks. 0 or 7.
#[unsafe(no_mangle)]
pub extern "C" fn swarmtempo_keyboard_wait(
    image: &mut [u8],
    ticks: u32,
    answered: &mut u8,
    answer: &mut u8,
) -> u8
    ensures value { result ≡ refusal_of (call_of (wait_of ticks) image.old).response }
    ensures answered_after { answered.new ≡ answered_of (call_of (wait_of ticks) image.old).response }
    ensures answer_after { answer.new ≡ byte_of (call_of (wait_of ticks) image.old).response }
    ensures image_after { image.new ≡ call_image (wait_of ticks) image.old }
{
    swarmtempo::keyboard_calls::swarmtempo_keyboard_wait(image, ticks, answered, answer)
}
