//! The keyboard's entries for C shells; what they do is in the crate keyboard_entry, and the crate swarmtempo_c exports them.
ghost use Rattle.std.specs.Prelude.{◌≡◌};
ghost use Rattle.keyboard.specs.Numbers.{refusal_of, byte_of};
ghost use Rattle.keyboard.specs.Steps.{command_of, key_of, wait_of};
ghost use Rattle.keyboard_image.specs.Image.{image_length};
ghost use Rattle.keyboard_entry.specs.Calls.{fresh_stop, fresh_image, answered_of, call_of, call_image};

/// The length of a keyboard's image in bytes.
pub fn swarmtempo_keyboard_len() -> u64
    ensures { result ≡ image_length }
{
    keyboard_image::LENGTH as u64
}

/// Writes the image of a keyboard that was just made, with this model byte. 0, or 6 where the room is shorter than an image.
pub fn swarmtempo_keyboard_fresh(image: &mut [u8], model: u8) -> u8
    ensures value { result ≡ fresh_stop image.old }
    ensures image_after { image.new ≡ fresh_image model image.old }
{
    keyboard_entry::fresh(image, model)
}

/// A command byte. 0, or 7 where no accepted keyboard has this image.
pub fn swarmtempo_keyboard_command(
    image: &mut [u8],
    byte: u8,
    answered: &mut u8,
    answer: &mut u8,
) -> u8
    ensures value { result ≡ refusal_of (call_of (command_of byte) image.old).response }
    ensures answered_after { answered.new ≡ answered_of (call_of (command_of byte) image.old).response }
    ensures answer_after { answer.new ≡ byte_of (call_of (command_of byte) image.old).response }
    ensures image_after { image.new ≡ call_image (command_of byte) image.old }
{
    keyboard_entry::command(image, byte, answered, answer)
}

/// A key code. 0, 7, or 11 where eight codes are held already.
pub fn swarmtempo_keyboard_key(image: &mut [u8], code: u8, answered: &mut u8, answer: &mut u8) -> u8
    ensures value { result ≡ refusal_of (call_of (key_of code) image.old).response }
    ensures answered_after { answered.new ≡ answered_of (call_of (key_of code) image.old).response }
    ensures answer_after { answer.new ≡ byte_of (call_of (key_of code) image.old).response }
    ensures image_after { image.new ≡ call_image (key_of code) image.old }
{
    keyboard_entry::key(image, code, answered, answer)
}

/// A wait in VIA ticks. 0 or 7.
pub fn swarmtempo_keyboard_wait(
    image: &mut [u8],
    ticks: u32,
    answered: &mut u8,
    answer: &mut u8,
) -> u8
    ensures value { result ≡ refusal_of (call_of (wait_of ticks) image.old).response }
    ensures answered_after { answered.new ≡ answered_of (call_of (wait_of ticks) image.old).response }
    ensures answer_after { answer.new ≡ byte_of (call_of (wait_of ticks) image.old).response }
    ensures image_after { image.new ≡ call_image (wait_of ticks) image.old }
{
    keyboard_entry::wait(image, ticks, answered, answer)
}
