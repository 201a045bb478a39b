//! The places of forms, by the numbers that a run counts them with.

ghost use Rattle.std.specs.Prelude.{◌≡◌, ◌++◌, ℕ, List};
ghost use Rattle.isle_answers.specs.Form.{Form as TheForm};
ghost use Rattle.isle_answers.specs.Views.{form_seen, forms_seen};
ghost use Rattle.isle_run_inputs.specs.Places.{is_of, of_kind, place_of, place_in, place_at, found_or};

use isle_answers::Form;

/// The kinds of forms that a run counts, in this order.
#[derive(Clone, Copy)]
pub enum Counted {
    Constants,
    Cases,
    Turns,
}

// Where a form begins.
fn place_of(form: &Form) -> usize
    ensures { result ≡ place_of (form_seen form.now) }
{
    match form {
        Form::Held { at, .. }
        | Form::Const { at, .. }
        | Form::Answers { at, .. }
        | Form::Turns { at, .. } => *at,
    }
}

// Whether a form is of the kind.
fn is_of(kind: Counted, form: &Form) -> bool
    ensures { result ≡ is_of kind (form_seen form.now) }
{
    match form {
        Form::Held { .. } => false,
        Form::Const { .. } => matches!(kind, Counted::Constants),
        Form::Answers { .. } => matches!(kind, Counted::Cases),
        Form::Turns { .. } => matches!(kind, Counted::Turns),
    }
}

// The place of the form of this kind and number, or the number that is left after those of the kind.
fn place_of_kind(forms: &[Form], kind: Counted, number: usize) -> Result<usize, usize>
    ensures { (end : ℕ) (more : List TheForm)
        → found_or end more result
        ≡ place_in end (of_kind kind (forms_seen forms.now) ++ more) number }
{
    let mut left = number;
    for form in forms {
        if is_of(kind, form) {
            if left == 0 {
                return Ok(place_of(form));
            }
            left -= 1;
        }
    }
    Err(left)
}

/// Returns the place that the number of a wrong form tells: where the form begins, or the end of the file where one is
/// missing. A run counts constants first, then cases, then turns (`specs/Places.antt`).
pub fn place_at(end: usize, forms: &[Form], number: usize) -> usize
    ensures { result ≡ place_at end (forms_seen forms.now) number }
{
    let cases = match place_of_kind(forms, Counted::Constants, number) {
        Ok(place) => return place,
        Err(left) => left,
    };
    let turns = match place_of_kind(forms, Counted::Cases, cases) {
        Ok(place) => return place,
        Err(left) => left,
    };
    match place_of_kind(forms, Counted::Turns, turns) {
        Ok(place) => place,
        Err(_) => end,
    }
}
