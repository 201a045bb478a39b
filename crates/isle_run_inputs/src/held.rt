//! What forms tell of the list of results: how long it is at entry.

ghost use Rattle.std.specs.Prelude.{◌≡◌};
ghost use Rattle.isle_answers.specs.Views.{forms_seen};
ghost use Rattle.isle_run_inputs.specs.Held.{held_at};

use isle_answers::Form;

/// Returns the length of the list of results at entry: 0 if no form tells it.
pub fn held_at(forms: &[Form]) -> usize
    ensures { result ≡ held_at (forms_seen forms.now) }
{
    for form in forms {
        match form {
            Form::Held { count, .. } => return *count,
            Form::Const { .. } | Form::Answers { .. } | Form::Turns { .. } => {}
        }
    }
    0
}
