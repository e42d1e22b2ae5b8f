ghost use Rattle.std.specs.Prelude.{◌≡◌};
ghost use Rattle.std.specs.Option.{option_copied, option_map};
ghost use Rattle.st_sexp.specs.Views.{as_name, as_number, as_list, as_pair, as_front, is_word};

use crate::{Form, Shape};
use st_text::Letters;

/// The letters of a name.
#[tactic(auto, unfolding(crate::specs::Views::as_name))]
pub fn as_name(form: &Form) -> Option<&Letters>
    ensures { option_copied result ≡ as_name form.now }
{
    match &form.shape {
        Shape::Name(letters) => Some(letters),
        _ => None,
    }
}

/// A number.
#[tactic(auto, unfolding(crate::specs::Views::as_number))]
pub fn as_number(form: &Form) -> Option<i64>
    ensures { result ≡ as_number form.now }
{
    match form.shape {
        Shape::Number(number) => Some(number),
        _ => None,
    }
}

/// The forms of a list.
#[tactic(auto, unfolding(crate::specs::Views::as_list))]
pub fn as_list(form: &Form) -> Option<&[Form]>
    ensures { option_map (λ forms. forms.now) result ≡ as_list form.now }
{
    match &form.shape {
        Shape::List(forms) => Some(forms.as_slice()),
        _ => None,
    }
}

/// Two forms, where there are just two.
pub fn as_pair(forms: &[Form]) -> Option<(&Form, &Form)>
    ensures { option_map (λ p. (p.0.now, p.1.now)) result ≡ as_pair forms.now }
{
    match forms {
        [a, b] => Some((a, b)),
        _ => None,
    }
}

/// The first of some forms, and the others.
pub fn as_front(forms: &[Form]) -> Option<(&Form, &[Form])>
    ensures { option_map (λ p. (p.0.now, p.1.now)) result ≡ as_front forms.now }
{
    forms.split_first()
}

/// Whether a form is the name with these letters.
pub fn is_word(form: &Form, word: &[u8]) -> bool
    ensures { result ≡ is_word form.now word.now }
{
    match as_name(form) {
        Some(letters) => letters.as_slice() == word,
        None => false,
    }
}
