#![tactic(auto)]
// The numbers and the targets that stand in an image, each at its place.
ghost use Rattle.std.specs.Prelude.{◌≡◌, ◌+◌, get_or};
ghost use Rattle.images.specs.Image.{number_at, target_at};
ghost use Rattle.image_numbers.specs.Numbers.{number_section};

use images::Form;
use rules::{Refusal, Rule};

// The byte so many behind a place; 0 beyond the image.
fn byte(image: &[u8], at: usize, more: usize) -> u8
    ensures { result ≡ get_or image.now (at + more) 0 }
{
    if image.len() <= at || image.len() - at <= more {
        return 0;
    }
    image[at + more]
}

// The number at a place, 16 bits, low byte first.
fn word(image: &[u8], at: usize) -> usize
    ensures { result ≡ number_at image.now at }
{
    byte(image, at, 0) as usize + 256 * byte(image, at, 1) as usize
}

// The number at a place, and the place after it; or the refusal of an image that ends before.
#[tactic(auto, unfolding(crate::specs::Numbers::number_section))]
pub fn number(image: &[u8], at: usize) -> Result<(usize, usize), Refusal>
    ensures { result ≡ number_section image.now at }
{
    let n = image.len();
    if n < 2 || n - 2 < at {
        return Err(Rule::Short.at(n));
    }
    Ok((word(image, at), at + 2))
}

// The target of a row that stands at a place.
pub fn target(form: Form, image: &[u8], row: u16, at: usize) -> usize
    ensures { result ≡ target_at form image.now row at }
{
    match form {
        Form::Plain => word(image, at),
        Form::Radio => steps::landing(row, steps::step_in(byte(image, at, 0))),
    }
}
