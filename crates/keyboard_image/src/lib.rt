//! A keyboard's image: one record of kind KB, written from a keyboard, read back, and judged.
#![tactic(auto)]

ghost use Rattle.std.specs.Prelude.{◌≡◌, ◌≤◌, length};
ghost use Rattle.octets.specs.Octets.{put_at};
ghost use Rattle.keyboard_image.specs.Image.{image_length, image_of, keyboard_of, valid_image};

use keyboard::Keyboard;

/// The length of an image in bytes.
pub const LENGTH: usize = 18;

/// What an image begins with: the length of what follows it, 2 bytes, and the kind.
const HEAD: [u8; 4] = [16, 0, b'K', b'B'];

#[tactic(auto, unfolding(crate::specs::Image::image_of))]
fn bytes(keyboard: Keyboard) -> [u8; LENGTH]
    ensures { result ≡ image_of keyboard }
{
    let mut image = [0; LENGTH];
    image[..4].copy_from_slice(&HEAD);
    image[4] = keyboard.model;
    image[5] = keyboard.held;
    image[14..].copy_from_slice(&keyboard.left.to_le_bytes());
    image[6..14].copy_from_slice(&keyboard.codes);
    image
}

/// Writes a keyboard's image in front; what lies past it keeps its bytes, and room of an image's length becomes the image.
pub fn save(image: &mut [u8], keyboard: Keyboard)
    requires { image_length ≤ length image.old }
    ensures front { image.new ≡ put_at image.old 0 (image_of keyboard) }
    ensures whole { length image.old ≡ image_length → image.new ≡ image_of keyboard }
{
    image[..LENGTH].copy_from_slice(&bytes(keyboard));
}

/// The keyboard of an image.
#[tactic(auto, unfolding(crate::specs::Image::keyboard_of))]
pub fn load(image: &[u8]) -> Keyboard
    requires { length image.now ≡ image_length }
    ensures { result ≡ keyboard_of image.now }
{
    let mut codes = [0; 8];
    codes.copy_from_slice(&image[6..14]);
    Keyboard {
        model: image[4],
        held: image[5],
        codes,
        left: octets::le32(image, 14),
    }
}

/// Whether this is the image of an accepted keyboard.
#[tactic(auto, unfolding(crate::specs::Image::valid_image))]
pub fn valid(image: &[u8]) -> bool
    ensures { result ≡ valid_image image.now }
{
    image.len() == LENGTH && image.starts_with(&HEAD) && load(image).is_accepted()
}
