//! The checks of statements.
ghost use Rattle.std.specs.Prelude.{◌≡◌, [], ◌∷◌, Some, IfOk};
ghost use Rattle.st_lattice.specs.Called.{called};
ghost use Rattle.st_lattice.specs.Outline.{type_named};
ghost use Rattle.st_query.specs.declared.kind.Expected.TheVariants.{Storable};
ghost use Rattle.st_query.specs.declared.kind.Sort.TheVariants.{Entity};
ghost use Rattle.st_query.specs.Kinds.{kind_sort, known};
ghost use Rattle.st_state.specs.declared.refusal.Refusal.TheVariants.{NotASet};
ghost use Rattle.st_state.specs.Refusals.{first_of};
ghost use Rattle.st_meaning.specs.Checks.{term_refused, key_refused, cells_refused, ensure_refused, typed_refused, set_refused, member_refused, text_refused};
ghost use Rattle.st_typing.specs.Scope.{names_of};

use crate::cells::{cells_refused, key_and_cells_refused, key_refused};
use crate::kinds::kind_sort;
use crate::query::{query_refused, shown_refused};
use crate::scope::Scope;
use crate::term::{term_refused, unknown_name};
use st_lattice::{Attribute, Called, Schema};
use st_query::{Cell, Expected, Sort, Statement, Term, Variable};
use st_state::Refusal;
use st_text::Duplicate;
use st_values::Letters;
use std::alloc::{AllocError, Global};

fn make_refused(
    alloc: Global,
    schema: &Schema,
    scope: &Scope<'_>,
    ty: &Letters,
    cells: &[Cell],
) -> Result<Option<Refusal>, AllocError>
    ensures { IfOk result (λ refused. refused ≡ typed_refused ty.now (λ t. cells_refused schema.now (names_of scope.now) t cells.now) (type_named schema.now ty.now)) }
{
    match schema.type_named(ty.as_slice()) {
        Some(ty) => cells_refused(alloc, schema, scope, ty, cells),
        None => unknown_name(alloc, ty.as_str()),
    }
}

fn find_refused(
    alloc: Global,
    schema: &Schema,
    scope: &Scope<'_>,
    ty: &Letters,
    key: &Letters,
    value: &Term,
) -> Result<Option<Refusal>, AllocError>
    ensures { IfOk result (λ refused. refused ≡ typed_refused ty.now (λ t. key_refused schema.now (names_of scope.now) t key.now value.now) (type_named schema.now ty.now)) }
{
    match schema.type_named(ty.as_slice()) {
        Some(ty) => key_refused(alloc, schema, scope, ty, key, value),
        None => unknown_name(alloc, ty.as_str()),
    }
}

fn ensure_refused(
    alloc: Global,
    schema: &Schema,
    scope: &Scope<'_>,
    ty: &Letters,
    cells: &[Cell],
) -> Result<Option<Refusal>, AllocError>
    ensures { IfOk result (λ refused. refused ≡ typed_refused ty.now (λ t. ensure_refused schema.now (names_of scope.now) t cells.now) (type_named schema.now ty.now)) }
{
    match schema.type_named(ty.as_slice()) {
        Some(ty) => key_and_cells_refused(alloc, schema, scope, ty, cells),
        None => unknown_name(alloc, ty.as_str()),
    }
}

/// The checks of an entity and of a value for an attribute of it.
fn filling_refused(
    alloc: Global,
    schema: &Schema,
    scope: &Scope<'_>,
    attribute: &Attribute,
    target: &Term,
    value: &Term,
) -> Result<Option<Refusal>, AllocError>
    ensures { IfOk result (λ refused. refused ≡ first_of (term_refused schema.now (names_of scope.now) (Storable (Entity attribute.now.owner)) target.now
        ∷ term_refused schema.now (names_of scope.now) (Storable (kind_sort attribute.now.kind)) value.now ∷ [])) }
{
    let expected = Expected::Storable(Sort::Entity(attribute.owner));
    if let Some(refusal) = term_refused(alloc, schema, scope, expected, target)? {
        return Ok(Some(refusal));
    }
    let expected = Expected::Storable(kind_sort(attribute.kind));
    term_refused(alloc, schema, scope, expected, value)
}

/// The checks of a `set` of what a name calls: an attribute with single values, the entity, the value.
fn set_refused(
    alloc: Global,
    schema: &Schema,
    scope: &Scope<'_>,
    name: &Letters,
    target: &Term,
    value: &Term,
) -> Result<Option<Refusal>, AllocError>
    ensures { IfOk result (λ refused. refused ≡ set_refused schema.now (names_of scope.now) name.now target.now value.now (called schema.now name.now)) }
{
    match schema.called(name.as_slice()) {
        Called::Own(attribute) => {
            if attribute.many {
                return Ok(Some(Refusal::WrongType));
            }
            filling_refused(alloc, schema, scope, attribute, target, value)
        }
        Called::Inverse(_) => Ok(Some(Refusal::WrongType)),
        Called::Nothing => unknown_name(alloc, name.as_str()),
    }
}

/// Rule 7 for a name.
fn no_set(alloc: Global, name: &Letters) -> Result<Option<Refusal>, AllocError>
    ensures { IfOk result (λ refused. refused ≡ Some (NotASet name.now)) }
{
    let name = name.copy(alloc)?;
    Ok(Some(Refusal::NotASet { name }))
}

/// The checks of an `add-to-set` or a `delete-from-set` of what a name calls: an attribute with sets, the entity, the
/// value.
fn member_refused(
    alloc: Global,
    schema: &Schema,
    scope: &Scope<'_>,
    name: &Letters,
    target: &Term,
    value: &Term,
) -> Result<Option<Refusal>, AllocError>
    ensures { IfOk result (λ refused. refused ≡ member_refused schema.now (names_of scope.now) name.now target.now value.now (called schema.now name.now)) }
{
    match schema.called(name.as_slice()) {
        Called::Own(attribute) => {
            if !attribute.many {
                return no_set(alloc, name);
            }
            filling_refused(alloc, schema, scope, attribute, target, value)
        }
        Called::Inverse(_) => no_set(alloc, name),
        Called::Nothing => unknown_name(alloc, name.as_str()),
    }
}

/// The first refusal of a statement by the rules on names, kinds and sets, 1, 2 and 7, in one pass in text order, or
/// none. `AllocError` where there is no memory.
pub fn text_refused(
    alloc: Global,
    schema: &Schema,
    variables: &[Variable],
    statement: &Statement,
) -> Result<Option<Refusal>, AllocError>
    ensures { IfOk result (λ refused. refused ≡ text_refused schema.now (known variables.now) statement.now) }
{
    let scope = Scope::Outside(variables);
    match statement {
        Statement::Make { var: _, ty, cells } => {
            make_refused(alloc, schema, &scope, ty, cells.as_slice())
        }
        Statement::Set {
            attribute,
            target,
            value,
        } => set_refused(alloc, schema, &scope, attribute, target, value),
        Statement::Add {
            attribute,
            target,
            value,
        } => member_refused(alloc, schema, &scope, attribute, target, value),
        Statement::Take {
            attribute,
            target,
            value,
        } => member_refused(alloc, schema, &scope, attribute, target, value),
        Statement::Delete { target } => {
            let expected = Expected::Comparable(Sort::Entity(0));
            term_refused(alloc, schema, &scope, expected, target)
        }
        Statement::Find {
            var: _,
            ty,
            key,
            value,
        } => find_refused(alloc, schema, &scope, ty, key, value),
        Statement::Ensure { var: _, ty, cells } => {
            ensure_refused(alloc, schema, &scope, ty, cells.as_slice())
        }
        Statement::Let { var: _, value } => {
            term_refused(alloc, schema, &scope, Expected::AnyValue, value)
        }
        Statement::Print { terms } => shown_refused(alloc, schema, &scope, terms.as_slice()),
        Statement::ForEach { query } => query_refused(alloc, schema, variables, query),
        Statement::Abort => Ok(None),
    }
}
