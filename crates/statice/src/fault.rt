//! The lines of a text's, a schema's and a script's faults.
ghost use Rattle.std.specs.Prelude.{◌≡◌, [], ◌∷◌, ◌++◌, flat_map, Some, Err, IfOk, OnOk};
ghost use Rattle.std.specs.Fmt.{decimal};
ghost use Rattle.st_statements.specs.declared.fault.Misread.{Misread};
ghost use Rattle.st_reader.specs.Faults.{fault_of};
ghost use Rattle.statice.specs.Form.{InSchema};
ghost use Rattle.statice.specs.Fault.{text_fault, counted_word, schema_fault, schema_line, script_fault, script_line, flaw_line, line_due};

use itoa::Buffer;
use sqlite_items::Items;
use st_reader::ScriptFault;
use st_schema::{Counted, SchemaFault};
use st_sexp::SexpFault;
use st_text::Letters;
use std::alloc::{AllocError, Global};

/// The number of a text's fault, and its place; None for want of memory, which is no fault of the text.
fn text_fault(fault: SexpFault) -> Option<(u8, u32)>
    ensures { result ≡ text_fault fault }
{
    match fault {
        SexpFault::Unclosed { place } => Some((1, place)),
        SexpFault::Stray { place } => Some((2, place)),
        SexpFault::BadNumber { place } => Some((3, place)),
        SexpFault::TooDeep { place } => Some((4, place)),
        SexpFault::NotUtf8 { place } => Some((5, place)),
        SexpFault::Memory => None,
    }
}

/// Adds a number and what it tells, and ends the line.
fn push_told(into: &mut Letters, number: u8, what: &str) -> Result<(), AllocError>
    ensures { OnOk result (into.new ≡ into.old ++ decimal number ++ 32 ∷ what.now ++ 10 ∷ []) }
{
    let mut buffer = Buffer::new();
    into.push_str(buffer.format(number))?;
    into.push_str(" ")?;
    into.push_str(what)?;
    into.push_str("\n")
}

/// The line of a fault: its front, its number and what it tells.
fn told_line(alloc: Global, front: &str, number: u8, what: &str) -> Result<Letters, AllocError>
    ensures { IfOk result (λ line. line ≡ front.now ++ decimal number ++ 32 ∷ what.now ++ 10 ∷ []) }
{
    let mut line = Letters::from_text(alloc, front)?;
    push_told(&mut line, number, what)?;
    Ok(line)
}

/// The line of a text's fault; want of memory is told as such.
pub fn text_fault_line(alloc: Global, fault: SexpFault) -> Result<Letters, AllocError>
    ensures { IfOk result (λ line. line_due (Err fault) ≡ Some line) }
{
    let mut buffer = Buffer::new();
    match text_fault(fault) {
        Some((number, place)) => told_line(alloc, "fault text ", number, buffer.format(place)),
        None => Err(AllocError),
    }
}

/// A fault's number and its fields as they are printed.
type Fields = (u8, Items<Letters>);

fn decimal_text(alloc: Global, number: u32) -> Result<Letters, AllocError>
    ensures { IfOk result (λ text. text ≡ decimal number) }
{
    let mut buffer = Buffer::new();
    Letters::from_text(alloc, buffer.format(number))
}

fn counted_text(alloc: Global, what: Counted) -> Result<Letters, AllocError>
    ensures { IfOk result (λ text. text ≡ counted_word what) }
{
    match what {
        Counted::Types => Letters::from_text(alloc, "types"),
        Counted::Attributes => Letters::from_text(alloc, "attributes"),
    }
}

fn named(alloc: Global, number: u8, name: Letters) -> Result<Option<Fields>, AllocError>
    ensures { IfOk result (λ found. found ≡ Some (number, name ∷ [])) }
{
    let mut fields = Items::new(alloc);
    fields.push(name)?;
    Ok(Some((number, fields)))
}

fn twice_named(
    alloc: Global,
    number: u8,
    first: Letters,
    second: Letters,
) -> Result<Option<Fields>, AllocError>
    ensures { IfOk result (λ found. found ≡ Some (number, first ∷ second ∷ [])) }
{
    let mut fields = Items::new(alloc);
    fields.push(first)?;
    fields.push(second)?;
    Ok(Some((number, fields)))
}

fn placed(alloc: Global, number: u8, place: u32) -> Result<Option<Fields>, AllocError>
    ensures { IfOk result (λ found. found ≡ Some (number, decimal place ∷ [])) }
{
    let place = decimal_text(alloc, place)?;
    named(alloc, number, place)
}

fn counted(
    alloc: Global,
    number: u8,
    name: Letters,
    count: u32,
) -> Result<Option<Fields>, AllocError>
    ensures { IfOk result (λ found. found ≡ Some (number, name ∷ decimal count ∷ [])) }
{
    let count = decimal_text(alloc, count)?;
    twice_named(alloc, number, name, count)
}

fn too_many(
    alloc: Global,
    number: u8,
    what: Counted,
    count: u32,
) -> Result<Option<Fields>, AllocError>
    ensures { IfOk result (λ found. found ≡ Some (number, counted_word what ∷ decimal count ∷ [])) }
{
    let word = counted_text(alloc, what)?;
    counted(alloc, number, word, count)
}

/// The number of a schema's fault, and its fields; None for want of memory, which is no fault of the schema.
fn schema_fault(alloc: Global, fault: SchemaFault) -> Result<Option<Fields>, AllocError>
    ensures { IfOk result (λ found. found ≡ schema_fault fault) }
{
    match fault {
        SchemaFault::Form { place } => placed(alloc, 1, place),
        SchemaFault::Repeated { name } => named(alloc, 2, name),
        SchemaFault::UnknownParent { name } => named(alloc, 3, name),
        SchemaFault::UnknownType { name } => named(alloc, 4, name),
        SchemaFault::AmbiguousName { ty, name } => twice_named(alloc, 5, ty, name),
        SchemaFault::RowTooWide { ty, width } => counted(alloc, 6, ty, width),
        SchemaFault::TooMany { what, count } => too_many(alloc, 7, what, count),
        SchemaFault::BadOption { place } => placed(alloc, 8, place),
        SchemaFault::Memory => Ok(None),
    }
}

fn push_fields(into: &mut Letters, fields: &[Letters]) -> Result<(), AllocError>
    ensures { OnOk result (into.new ≡ into.old ++ flat_map (λ field. 32 ∷ field) fields.now) }
{
    for field in fields {
        into.push_str(" ")?;
        into.push_str(field.as_str())?;
    }
    Ok(())
}

fn schema_line(alloc: Global, number: u8, fields: &[Letters]) -> Result<Letters, AllocError>
    ensures { IfOk result (λ line. line ≡ schema_line (number, fields.now)) }
{
    let mut buffer = Buffer::new();
    let mut line = Letters::from_text(alloc, "fault schema ")?;
    line.push_str(buffer.format(number))?;
    push_fields(&mut line, fields)?;
    line.push_str("\n")?;
    Ok(line)
}

/// The line of a schema's fault; want of memory is told as such.
pub fn schema_fault_line(alloc: Global, fault: SchemaFault) -> Result<Letters, AllocError>
    ensures { IfOk result (λ line. flaw_line (InSchema fault) ≡ Some line) }
{
    match schema_fault(alloc, fault)? {
        Some((number, fields)) => schema_line(alloc, number, fields.as_slice()),
        None => Err(AllocError),
    }
}

/// The line of a script that is misread. Want of memory is told as such; no script has the other faults of an input.
pub fn script_fault_line(alloc: Global, fault: ScriptFault) -> Result<Letters, AllocError>
    ensures { IfOk result (λ line. (misread : Misread) × (fault ≡ fault_of misread) × (line ≡ script_line (script_fault misread))) }
{
    let mut buffer = Buffer::new();
    match fault {
        ScriptFault::Form { place } => told_line(alloc, "fault script ", 1, buffer.format(place)),
        ScriptFault::TooManyStatements { count } => told_line(
            alloc,
            "fault script ",
            2,
            buffer.format(count),
        ),
        ScriptFault::BadClient { number } => told_line(
            alloc,
            "fault script ",
            3,
            buffer.format(number),
        ),
        ScriptFault::Text(_) | ScriptFault::InputTooLong { .. } | ScriptFault::Memory => {
            Err(AllocError)
        }
    }
}
