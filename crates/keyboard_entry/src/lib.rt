//! The keyboard for C and Rust shells: numbers and byte slices, the state as a lent image. The crate swarmtempo_c exports these functions. Three of one shape, and an
//! answer with a number beside it that says whether there is one: the C interface has no Option.
#![tactic(auto)]

ghost use Rattle.std.specs.Prelude.{◌≡◌};
ghost use Rattle.std.specs.Fn.{FnOnceReturnsAtMut};
ghost use Rattle.keyboard.specs.declared.Keyboard.{Keyboard};
ghost use Rattle.keyboard.specs.Numbers.{refusal_of, byte_of};
ghost use Rattle.keyboard.specs.Steps.{Stepped, command_of, key_of, wait_of};
ghost use Rattle.keyboard_entry.specs.Calls.{fresh_stop, fresh_image, answered_of, call_of, call_image, DoesStep};

use keyboard::{Keyboard, Response};
use refusal::{Refusal, stop_number};

/// Writes the image of a keyboard that was just made. 0, or 6 where the room is shorter than an image.
#[tactic(auto, unfolding(crate::specs::Calls::fresh_stop, crate::specs::Calls::fresh_image))]
pub fn fresh(image: &mut [u8], model: u8) -> u8
    ensures value { result ≡ fresh_stop image.old }
    ensures image_after { image.new ≡ fresh_image model image.old }
{
    if image.len() < keyboard_image::LENGTH {
        return u8::from(Refusal::NoRoom);
    }
    keyboard_image::save(image, Keyboard::new(model));
    0
}

/// A step on the keyboard of a lent image. Bytes that are no accepted keyboard's image are refused, and stay.
fn on_image<F: FnOnce(&mut Keyboard) -> Response>(image: &mut [u8], step: F) -> Response
    requires { F.IsAlwaysCallable step }
    ensures said { (next : Keyboard → Stepped) → DoesStep (FnOnceReturnsAtMut F.FnOnce step) next → result ≡ (call_of next image.old).response }
    ensures image_after { (next : Keyboard → Stepped) → DoesStep (FnOnceReturnsAtMut F.FnOnce step) next → image.new ≡ call_image next image.old }
{
    if !keyboard_image::valid(image) {
        return Err(Refusal::NotAccepted);
    }
    let mut keyboard = keyboard_image::load(image);
    let response = step(&mut keyboard);
    keyboard_image::save(image, keyboard);
    response
}

/// Tells a response in numbers: whether there is an answer byte, and which; the number of the refusal.
#[tactic(auto, unfolding(crate::specs::Calls::answered_of, keyboard::specs::Numbers::refusal_of))]
fn tell(response: Response, answered: &mut u8, answer: &mut u8) -> u8
    ensures value { result ≡ refusal_of response }
    ensures answered_after { answered.new ≡ answered_of response }
    ensures answer_after { answer.new ≡ byte_of response }
{
    let byte = keyboard::answer_byte(response);
    *answered = byte.is_some() as u8;
    *answer = byte.unwrap_or(0);
    stop_number(response.err())
}

/// A command byte. 0, or 7 where no accepted keyboard has this image.
pub fn command(image: &mut [u8], byte: u8, answered: &mut u8, answer: &mut u8) -> u8
    ensures value { result ≡ refusal_of (call_of (command_of byte) image.old).response }
    ensures answered_after { answered.new ≡ answered_of (call_of (command_of byte) image.old).response }
    ensures answer_after { answer.new ≡ byte_of (call_of (command_of byte) image.old).response }
    ensures image_after { image.new ≡ call_image (command_of byte) image.old }
{
    let response = on_image(image, |keyboard| keyboard.command(byte));
    tell(response, answered, answer)
}

/// A key code. 0, 7, or 11 where eight codes are held already.
pub fn key(image: &mut [u8], code: u8, answered: &mut u8, answer: &mut u8) -> u8
    ensures value { result ≡ refusal_of (call_of (key_of code) image.old).response }
    ensures answered_after { answered.new ≡ answered_of (call_of (key_of code) image.old).response }
    ensures answer_after { answer.new ≡ byte_of (call_of (key_of code) image.old).response }
    ensures image_after { image.new ≡ call_image (key_of code) image.old }
{
    let response = on_image(image, |keyboard| keyboard.key(code));
    tell(response, answered, answer)
}

/// A wait in VIA ticks. 0 or 7.
pub fn wait(image: &mut [u8], ticks: u32, answered: &mut u8, answer: &mut u8) -> u8
    ensures value { result ≡ refusal_of (call_of (wait_of ticks) image.old).response }
    ensures answered_after { answered.new ≡ answered_of (call_of (wait_of ticks) image.old).response }
    ensures answer_after { answer.new ≡ byte_of (call_of (wait_of ticks) image.old).response }
    ensures image_after { image.new ≡ call_image (wait_of ticks) image.old }
{
    let response = on_image(image, |keyboard| keyboard.wait(ticks));
    tell(response, answered, answer)
}
