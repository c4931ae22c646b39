#![tactic(auto)]
// What the images of a pack say, one after another, and what their tables need; nothing is lent.
ghost use Rattle.std.specs.Prelude.{◌≡◌, false};
ghost use Rattle.rules.specs.Rules.{winch};
ghost use Rattle.image_sections.specs.Read.{any_rows, read_of};
ghost use Rattle.pack_images.specs.Images.{refusal_in, images_read};
ghost use Rattle.pack_images.specs.Judge.{needed_by};

use image_sections::Shape;
use images::Form;
use rules::{Refusal, Rule};

// How many cells and mark bytes the tables of a pack need.
#[derive(Clone, Copy)]
pub struct Needs {
    pub cells: usize,
    pub marks: usize,
}

// What the image at the front of bytes says, within the winch's limits.
pub fn open_image(form: Form, image: &[u8]) -> Result<Shape, Refusal>
    ensures { result ≡ read_of false form winch any_rows image.now }
{
    let limits = rules::winch();
    let small = limits.rows;
    image_sections::judge(false, form, limits, small, image)
}

// The refusal of an image in a pack of so many bytes.
fn in_pack(whole: usize, refusal: Refusal) -> Refusal
    ensures { result ≡ refusal_in whole refusal }
{
    if refusal.rule.number() == 8 {
        return refusal.rule.at(whole);
    }
    refusal
}

// Judges so many images one after another, in a pack of so many bytes, and then what is left over.
#[tactic(auto, using(crate::proofs::Judging::judging_ends))]
pub fn judge(whole: usize, count: usize, images: &[u8]) -> Result<Needs, Refusal>
    ensures { result ≡ needed_by (images_read whole count images.now) }
{
    let mut at = 0;
    let mut cells = 0;
    let mut marks = 0;
    for _ in 0..count {
        let shape = match open_image(Form::Radio, &images[at..]) {
            Ok(shape) => shape,
            Err(refusal) => return Err(in_pack(whole, refusal)),
        };
        at += images::image_length(Form::Radio, shape.rows as u16, shape.events as u16);
        cells += shape.rows * shape.events;
        marks += marks::mark_bytes(shape.rows);
    }
    if at < images.len() {
        return Err(Rule::Trailing.at(0));
    }
    Ok(Needs { cells, marks })
}
