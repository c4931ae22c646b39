#![tactic(auto)]
// What is judged of a table before its image is written, in either form.
ghost use Rattle.std.specs.Prelude.{◌≡◌, ◌≤◌, ◌<◌, length};
ghost use Rattle.rules.specs.Rules.{judged, lent};
ghost use Rattle.image_rules.specs.Checks.{steps_rule, form_checks, image_checks};

use images::Form;
use rules::{Refusal, Rule, Table};

// Whether each step fits a signed byte.
fn check_steps(events: usize, cells: &[u16]) -> Result<(), Refusal>
    requires { (0 < events) × (length cells.now ≤ 65535) }
    ensures { result ≡ steps_rule events cells.now }
{
    for (i, cell) in cells.iter().enumerate() {
        if steps::step_to((i / events) as u16, *cell).is_none() {
            return Err(Rule::Step.at(i));
        }
    }
    Ok(())
}

// What a form asks of the targets.
fn check_targets(form: Form, events: usize, cells: &[u16]) -> Result<(), Refusal>
    requires { (0 < events) × (length cells.now ≤ 65535) }
    ensures { result ≡ judged (form_checks form events cells.now) }
{
    match form {
        Form::Plain => Ok(()),
        Form::Radio => check_steps(events, cells),
    }
}

// Rules 1 to 6, and 14 for a radio image.
pub fn check_image(form: Form, table: Table<'_>) -> Result<(), Refusal>
    ensures { result ≡ judged (image_checks form (lent table.entry)) }
{
    rules::check_table(rules::winch(), table)?;
    check_targets(form, table.events, table.cells)
}
