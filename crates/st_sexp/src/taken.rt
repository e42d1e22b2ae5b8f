//! What a form is, as one thing or another, where the form is taken apart.
ghost use Rattle.std.specs.Prelude.{◌≡◌};
ghost use Rattle.std.specs.Option.{ok_or};
ghost use Rattle.st_sexp.specs.Views.{as_name, as_list};

use crate::{Form, Forms, Shape};
use st_text::Letters;

/// The letters of a name, moved.
#[tactic(auto, unfolding(crate::specs::Views::as_name))]
pub fn into_name(form: Form) -> Option<Letters>
    ensures { result ≡ as_name form }
{
    match form.shape {
        Shape::Name(letters) => Some(letters),
        _ => None,
    }
}

/// The forms of a list, moved; else the form itself.
#[tactic(auto, unfolding(crate::specs::Views::as_list))]
pub fn into_list(form: Form) -> Result<Forms, Form>
    ensures { result ≡ ok_or (as_list form) form }
{
    let Form { shape, from, to } = form;
    match shape {
        Shape::List(forms) => Ok(forms),
        shape => Err(Form { shape, from, to }),
    }
}
