//! Forms inside forms, taken apart: the lists of a path, and lists spliced into one another.
ghost use Rattle.std.specs.Prelude.{◌≡◌, IfOk};
ghost use Rattle.std.specs.Option.{ok_or};
ghost use Rattle.st_sexp.specs.Views.{as_list};
ghost use Rattle.st_sexp.specs.Items.{behind};
ghost use Rattle.st_sexp.specs.Nested.{front, descent, is_path, step_of, path_parts, spliced};

use crate::taken::into_list;
use crate::{Ahead, Form, Forms, as_list, behind};
use sqlite_items::Items;
use std::alloc::{AllocError, Global};

/// One list of a path: its head, and its forms behind the second.
#[derive(Debug, Drop)]
pub struct Step {
    pub head: Form,
    pub more: Forms,
}

/// The lists of a path, from the outermost on, and the form that it leads to.
#[derive(Debug, Drop)]
pub struct Path {
    pub levels: Ahead<Step>,
    pub inner: Form,
}

/// Whether a form is a list of two forms or more.
fn is_path(form: &Form) -> bool
    ensures { result ≡ is_path (as_list form.now) }
{
    match as_list(form) {
        Some([_, _, ..]) => true,
        _ => false,
    }
}

/// The first of a list, moved, and the others.
fn split_front<T: Drop>(items: Items<T>) -> Option<(T, Items<T>)>
    ensures { result ≡ front items }
{
    let mut items = items;
    if items.is_empty() {
        None
    } else {
        let first = items.remove(0);
        Some((first, items))
    }
}

/// The step and the second form of a list that has one.
fn step_of(forms: Forms) -> Option<(Step, Form)>
    ensures { result ≡ step_of forms }
{
    let (head, forms) = split_front(forms)?;
    let (second, more) = split_front(forms)?;
    Some((Step { head, more }, second))
}

/// A list of two forms or more, taken apart; else the form itself.
fn into_path(form: Form) -> Result<(Step, Form), Form>
    ensures { result ≡ path_parts form (as_list form) }
{
    if !is_path(&form) {
        return Err(form);
    }
    let forms = into_list(form)?;
    Ok(step_of(forms).unwrap())
}

/// The lists of a path, from the outermost on, and the form that it leads to. The form is taken apart. `AllocError` where
/// there is no memory.

pub fn descent(alloc: Global, form: Form) -> Result<Path, AllocError>
    ensures { IfOk result (λ found. found ≡ descent form) }
{
    let mut levels = Items::new(alloc);
    let mut form = form;
    loop {
        match into_path(form) {
            Ok((step, second)) => {
                levels.push(step)?;
                form = second;
            }
            Err(inner) => {
                let levels = Ahead::new(alloc, levels)?;
                return Ok(Path { levels, inner });
            }
        }
    }
}

/// The forms behind the head of a list, moved, where this word is its head; else the form itself.
pub fn into_behind(word: &[u8], form: Form) -> Result<Forms, Form>
    ensures { result ≡ ok_or (behind word.now form) form }
{
    if behind(word, &form).is_none() {
        return Err(form);
    }
    let forms = into_list(form)?;
    let (_, items) = split_front(forms).unwrap();
    Ok(items)
}

/// The items of a list with this head, those of inner ones in their place, at any depth; another form is one item. The form
/// is taken apart. `AllocError` where there is no memory.
pub fn spliced(alloc: Global, word: &[u8], form: Form) -> Result<Ahead<Form>, AllocError>
    ensures { IfOk result (λ items. items ≡ spliced word.now form) }
{
    let mut work = Items::new(alloc);
    work.push(form)?;
    let mut reversed = Items::new(alloc);
    while let Some(form) = work.pop() {
        match into_behind(word, form) {
            Ok(items) => work.append(items)?,
            Err(item) => reversed.push(item)?,
        }
    }
    Ok(Ahead::from_reversed(reversed))
}
