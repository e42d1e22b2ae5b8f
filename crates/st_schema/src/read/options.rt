//! The options of attributes.
ghost use Rattle.std.specs.Prelude.{◌≡◌, ◌∷◌, [], codes, IfOk};
ghost use Rattle.std.specs.Result.{result_map_both};
ghost use Rattle.st_text.specs.Answer.{Answers};
ghost use Rattle.st_schema.specs.Written.{told, truth, word_of, setting_of, is_given, new_choice, option_word, choice_at, choices_with, choices_after};

use crate::SchemaFault;
use crate::written::{Choice, Choices, Setting};
use st_sexp::{Form, as_front, as_name, identifier, is_word};
use st_text::{Duplicate, Letters};
use std::alloc::{AllocError, Global};

/// `t` or `nil`.
fn truth(form: &Form) -> Option<bool>
    ensures { result ≡ truth form.now }
{
    if is_word(form, b"t") {
        Some(true)
    } else if is_word(form, b"nil") {
        Some(false)
    } else {
        None
    }
}

/// The word of an option.
fn word_of(setting: &Setting) -> &'static [u8]
    ensures { result.now ≡ word_of setting.now }
{
    match setting {
        Setting::Inverse(_) => b":inverse",
        Setting::Unique(_) => b":unique",
        Setting::NoNulls(_) => b":no-nulls",
        Setting::Index(_) => b":index",
    }
}

/// `:inverse` with its value, where that is a name.
fn inverse(alloc: Global, value: &Form) -> Result<Option<Setting>, AllocError>
    ensures { IfOk result (λ found. found ≡ setting_of (codes ":inverse") value.now) }
{
    match identifier(value) {
        Some(name) => Ok(Some(Setting::Inverse(name.copy(alloc)?))),
        None => Ok(None),
    }
}

/// An option by its word and its value, where both are known.
fn setting_of(alloc: Global, word: &[u8], value: &Form) -> Result<Option<Setting>, AllocError>
    ensures { IfOk result (λ found. found ≡ setting_of word.now value.now) }
{
    if word == b":inverse".as_slice() {
        inverse(alloc, value)
    } else if word == b":unique".as_slice() {
        Ok(truth(value).map(|on| Setting::Unique(on)))
    } else if word == b":no-nulls".as_slice() {
        Ok(truth(value).map(|on| Setting::NoNulls(on)))
    } else if word == b":index".as_slice() {
        Ok(truth(value).map(|on| Setting::Index(on)))
    } else {
        Ok(None)
    }
}

/// Whether an option of this word was given.
fn is_given(word: &[u8], choices: &[Choice]) -> bool
    ensures { result ≡ is_given word.now choices.now }
{
    choices
        .iter()
        .any(|choice| word_of(&choice.setting) == word)
}

/// An option that was not given before.
fn new_choice(
    alloc: Global,
    before: &[Choice],
    place: u32,
    word: &[u8],
    value: &Form,
) -> Result<Option<Choice>, AllocError>
    ensures { IfOk result (λ found. found ≡ new_choice before.now place word.now value.now) }
{
    if is_given(word, before) {
        return Ok(None);
    }
    let Some(setting) = setting_of(alloc, word, value)? else {
        return Ok(None);
    };
    Ok(Some(Choice { setting, place }))
}

/// The word of an option: any name.
fn option_word(form: &Form) -> Result<&Letters, SchemaFault>
    ensures { result_map_both (λ word. word.now) (λ e. e) result ≡ option_word form.now }
{
    match as_name(form) {
        Some(word) => Ok(word),
        None => Err(SchemaFault::Form { place: form.from }),
    }
}

/// A word without a value.
fn lone_word(word: &Form) -> Result<Choices, SchemaFault>
    ensures { Answers told result (choices_after [] (word.now ∷ [])) }
{
    option_word(word)?;
    Err(SchemaFault::BadOption { place: word.from })
}

/// An option: a word and its value.
fn choice_at(
    alloc: Global,
    before: &[Choice],
    word: &Form,
    value: &Form,
) -> Result<Choice, SchemaFault>
    ensures { Answers told result (choice_at before.now word.now value.now) }
{
    let letters = option_word(word)?;
    match new_choice(alloc, before, word.from, letters.as_slice(), value)? {
        Some(choice) => Ok(choice),
        None => Err(SchemaFault::BadOption { place: word.from }),
    }
}

/// Options with one more behind them.
fn choices_with(
    alloc: Global,
    before: Choices,
    word: &Form,
    value: &Form,
) -> Result<Choices, SchemaFault>
    ensures { Answers told result (choices_with before word.now value.now) }
{
    let mut choices = before;
    let choice = choice_at(alloc, choices.as_slice(), word, value)?;
    choices.push(choice)?;
    Ok(choices)
}

/// The options that some forms are, each a word and its value, behind those that came before.
#[tactic(auto, using(crate::proofs::Choices::choices_two))]
pub(crate) fn choices_after(
    alloc: Global,
    before: Choices,
    forms: &[Form],
) -> Result<Choices, SchemaFault>
    ensures { Answers told result (choices_after before forms.now) }
{
    let Some((word, rest)) = as_front(forms) else {
        return Ok(before);
    };
    let Some((value, more)) = as_front(rest) else {
        return lone_word(word);
    };
    let choices = choices_with(alloc, before, word, value)?;
    choices_after(alloc, choices, more)
}
