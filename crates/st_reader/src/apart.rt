//! The two parts of an input with a schema and a script.
ghost use Rattle.std.specs.Prelude.{◌≡◌, IfOk};
ghost use Rattle.st_reader.specs.Split.{opens_script, schema_part, script_part};

use sqlite_items::Items;
use st_sexp::{Ahead, Form, Forms, behind};
use std::alloc::{AllocError, Global};

/// Whether a form is a list that begins with the name `with-transaction`.
fn opens_script(form: &Form) -> bool
    ensures { result ≡ opens_script form.now }
{
    behind(b"with-transaction", form).is_some()
}

/// All forms that are left.
fn all_of(alloc: Global, ahead: Ahead<Form>) -> Result<Forms, AllocError>
    ensures { IfOk result (λ forms. forms ≡ ahead) }
{
    let mut ahead = ahead;
    let mut forms = Items::new(alloc);
    while let Some(form) = ahead.next() {
        forms.push(form)?;
    }
    Ok(forms)
}

/// The forms of an input's schema, those before the first list that begins with `with-transaction`, or all where there is no
/// such list; and the forms of its script, that list and all behind it. `AllocError` where there is no memory.
pub fn split(alloc: Global, forms: Forms) -> Result<(Forms, Forms), AllocError>
    ensures schema { IfOk result (λ parts. parts.0 ≡ schema_part forms) }
    ensures script { IfOk result (λ parts. parts.1 ≡ script_part forms) }
{
    let mut ahead = Ahead::new(alloc, forms)?;
    let mut schema = Items::new(alloc);
    while let Some(form) = ahead.next() {
        if opens_script(&form) {
            ahead.put_back(form)?;
            return Ok((schema, all_of(alloc, ahead)?));
        }
        schema.push(form)?;
    }
    Ok((schema, Items::new(alloc)))
}
