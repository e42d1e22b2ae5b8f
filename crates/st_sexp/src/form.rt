ghost use Rattle.std.specs.Prelude.{◌≡◌, IfOk};

use sqlite_items::Items;
use st_text::{Duplicate, Letters};
use std::alloc::{AllocError, Global};

/// A list of forms.
pub type Forms = Items<Form>;

/// A form and its place: the bytes of the text from `from` up to `to`, the latter left out.
#[cycle(form)]
#[derive(Debug, Drop)]
pub struct Form {
    pub shape: Shape,
    pub from: u32,
    pub to: u32,
}

/// What a form is.
#[cycle(form)]
#[derive(Debug, Drop)]
pub enum Shape {
    /// A name, in small letters.
    Name(Letters),
    /// A number of 64 bits.
    Number(i64),
    /// A quoted text, without its quotes and escapes.
    Quoted(Letters),
    /// The forms between two parentheses.
    List(Items<Form>),
}

impl Duplicate for Form {
    fn copy(&self, alloc: Global) -> Result<Form, AllocError> {
        copy_form(alloc, self)
    }
}

impl Duplicate for Shape {
    fn copy(&self, alloc: Global) -> Result<Shape, AllocError> {
        copy_shape(alloc, self)
    }
}

#[cycle(copy)]
fn copy_form(alloc: Global, form: &Form) -> Result<Form, AllocError>
    ensures { IfOk result (λ copied. copied ≡ form.now) }
{
    let shape = copy_shape(alloc, &form.shape)?;
    Ok(Form {
        shape,
        from: form.from,
        to: form.to,
    })
}

#[cycle(copy)]
fn copy_shape(alloc: Global, shape: &Shape) -> Result<Shape, AllocError>
    ensures { IfOk result (λ copied. copied ≡ shape.now) }
{
    match shape {
        Shape::Name(letters) => Ok(Shape::Name(letters.copy(alloc)?)),
        Shape::Number(number) => Ok(Shape::Number(*number)),
        Shape::Quoted(letters) => Ok(Shape::Quoted(letters.copy(alloc)?)),
        Shape::List(forms) => Ok(Shape::List(copy_forms(alloc, forms.as_slice())?)),
    }
}

#[cycle(copy)]
fn copy_forms(alloc: Global, forms: &[Form]) -> Result<Forms, AllocError>
    ensures { IfOk result (λ copied. copied ≡ forms.now) }
{
    let mut copied = Items::new(alloc);
    for form in forms {
        copied.push(copy_form(alloc, form)?)?;
    }
    Ok(copied)
}
