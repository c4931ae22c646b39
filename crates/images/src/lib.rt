#![tactic(auto)]
// The two forms of an image: they differ in how targets stand in it.
ghost use Rattle.std.specs.Prelude.{◌≡◌};
ghost use Rattle.images.specs.Image.{width as width_of, length_of_image};

// Document 01's image, with a number for each target; and the radio image of #102, with a step, a signed byte.
#[derive(Clone, Copy)]
pub enum Form {
    Plain,
    Radio,
}

// How many bytes a target has.
pub fn width(form: Form) -> usize
    ensures { result ≡ width_of form }
{
    match form {
        Form::Plain => 2,
        Form::Radio => 1,
    }
}

// How many bytes the image of so many rows and events has.
pub fn image_length(form: Form, rows: u16, events: u16) -> usize
    ensures { result ≡ length_of_image form rows events }
{
    let rows = rows as usize;
    marks::mark_bytes(rows) + width(form) * (rows * events as usize) + 8
}
