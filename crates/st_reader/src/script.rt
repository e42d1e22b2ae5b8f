//! How transactions and scripts are written.
ghost use Rattle.std.specs.Prelude.{◌≡◌};
ghost use Rattle.st_text.specs.Answer.{Answers};
ghost use Rattle.st_statements.specs.Faults.{misread_of};
ghost use Rattle.st_statements.specs.Queries.{query_at};
ghost use Rattle.st_reader.specs.Scripts.{counted, statements_in, statements_at, items_at, transaction_at, script, one_form};

use sqlite_items::Items;
use st_query::{Query, Script, Statements, Transaction};
use st_sexp::{Ahead, Form, Forms, behind, spliced};
use st_statements::{Misread, Stop, end_of, misfit, next_at, query_at, statement_at};
use std::alloc::Global;

/// How many statements a transaction may have.
const MAX_STATEMENTS: usize = 4096;

/// A count, or the greatest one that 32 bits hold.
fn counted(count: usize) -> u32
    ensures { result ≡ counted count }
{
    count.min(u32::MAX as usize) as u32
}

/// Statements, one form each.
fn statements_in(alloc: Global, items: Ahead<Form>) -> Result<Statements, Stop>
    ensures { Answers misread_of result (statements_in items) }
{
    let mut items = items;
    let mut statements = Items::new(alloc);
    while let Some(item) = items.next() {
        statements.push(statement_at(alloc, item)?)?;
    }
    Ok(statements)
}

/// The statements of a transaction, not more than it may have.
fn statements_at(alloc: Global, items: Ahead<Form>) -> Result<Statements, Stop>
    ensures { Answers misread_of result (statements_at items) }
{
    if items.len() > MAX_STATEMENTS {
        let count = counted(items.len());
        return Err(Stop::Misread(Misread::TooManyStatements { count }));
    }
    statements_in(alloc, items)
}

/// The items of `(with-transaction ITEM ..)`, those of inner ones in their place.
fn items_at(alloc: Global, form: Form) -> Result<Ahead<Form>, Stop>
    ensures { Answers misread_of result (items_at form) }
{
    if behind(b"with-transaction", &form).is_none() {
        return Err(misfit(form.from));
    }
    Ok(spliced(alloc, b"with-transaction", form)?)
}

/// A transaction.
pub(crate) fn transaction_at(alloc: Global, form: Form) -> Result<Transaction, Stop>
    ensures { Answers misread_of result (transaction_at form) }
{
    let items = items_at(alloc, form)?;
    let statements = statements_at(alloc, items)?;
    Ok(Transaction { statements })
}

/// Any number of transactions.
pub(crate) fn script(alloc: Global, forms: Forms) -> Result<Script, Stop>
    ensures { Answers misread_of result (script forms) }
{
    let mut forms = Ahead::new(alloc, forms)?;
    let mut transactions = Items::new(alloc);
    while let Some(form) = forms.next() {
        transactions.push(transaction_at(alloc, form)?)?;
    }
    Ok(transactions)
}

/// One query alone.
pub(crate) fn one_query(alloc: Global, forms: Forms) -> Result<Query, Stop>
    ensures { Answers misread_of result (one_form query_at forms) }
{
    let (form, forms) = next_at(0, Ahead::new(alloc, forms)?)?;
    let query = query_at(alloc, form)?;
    end_of(forms, query)
}

/// One transaction alone.
pub(crate) fn one_transaction(alloc: Global, forms: Forms) -> Result<Transaction, Stop>
    ensures { Answers misread_of result (one_form transaction_at forms) }
{
    let (form, forms) = next_at(0, Ahead::new(alloc, forms)?)?;
    let transaction = transaction_at(alloc, form)?;
    end_of(forms, transaction)
}
