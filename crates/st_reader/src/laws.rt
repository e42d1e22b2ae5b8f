//! Laws of the definitions, by a function that does nothing.
ghost use Rattle.std.specs.Prelude.{◌≡◌, ◌⊎◌, List, ℕ, Result};
ghost use Rattle.st_query.specs.declared.query.Query.{Query};
ghost use Rattle.st_query.specs.declared.statement.Transaction.{Transaction};
ghost use Rattle.st_statements.specs.Queries.{query_at};
ghost use Rattle.st_reader.specs.declared.fault.ScriptFault.{ScriptFault};
ghost use Rattle.st_reader.specs.Scripts.{script, transaction_at, one_form};
ghost use Rattle.st_reader.specs.Inputs.{DueFor, Wants};

use st_sexp::laws_of_texts;

/// Each input has exactly one answer, want of memory aside: what it is read as, or its first fault. So for scripts, for
/// queries and for transactions.
pub fn laws_of_inputs()
    ensures some_script { (bytes : List ℕ) → (answer : Result (List Transaction) ScriptFault) × DueFor script bytes answer × ¬ (Wants answer) }
    ensures one_script { (bytes : List ℕ) (a b : Result (List Transaction) ScriptFault) →
        DueFor script bytes a → DueFor script bytes b → Wants a ⊎ Wants b ⊎ (a ≡ b) }
    ensures some_query { (bytes : List ℕ) → (answer : Result Query ScriptFault) × DueFor (one_form query_at) bytes answer × ¬ (Wants answer) }
    ensures one_query { (bytes : List ℕ) (a b : Result Query ScriptFault) →
        DueFor (one_form query_at) bytes a → DueFor (one_form query_at) bytes b → Wants a ⊎ Wants b ⊎ (a ≡ b) }
    ensures some_transaction { (bytes : List ℕ) → (answer : Result Transaction ScriptFault) × DueFor (one_form transaction_at) bytes answer × ¬ (Wants answer) }
    ensures one_transaction { (bytes : List ℕ) (a b : Result Transaction ScriptFault) →
        DueFor (one_form transaction_at) bytes a → DueFor (one_form transaction_at) bytes b → Wants a ⊎ Wants b ⊎ (a ≡ b) }
{
    laws_of_texts();
}
