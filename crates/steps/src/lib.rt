#![tactic(auto)]
// Steps from row to row as signed bytes: "a signed byte, target minus own row".
ghost use Rattle.std.specs.Prelude.{◌≡◌};
ghost use Rattle.steps.specs.Steps.{step_of, byte_of_step, step_of_byte, landing as landing_of};

// The step from a row to its target; none if it is too far for a signed byte.
pub fn step_to(row: u16, target: u16) -> Option<i8>
    ensures { result ≡ step_of row target }
{
    let d = target as i32 - row as i32;
    match d {
        -128..=127 => Some(d as i8),
        _ => None,
    }
}

// The byte of a step.
pub fn byte_of(d: i8) -> u8
    ensures { result ≡ byte_of_step d }
{
    d.cast_unsigned()
}

// The step of a byte.
pub fn step_in(b: u8) -> i8
    ensures { result ≡ step_of_byte b }
{
    b.cast_signed()
}

// The row that a step leads to; 65,535 for one off the table's front.
pub fn landing(row: u16, d: i8) -> usize
    ensures { result ≡ landing_of row d }
{
    let t = row as i32 + d as i32;
    if t < 0 { 65535 } else { t as usize }
}
