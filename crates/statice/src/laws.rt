ghost use Rattle.std.specs.Prelude.{◌≡◌, ◌⊎◌, ◌≤◌, ◌<◌, ℕ, List, length, Ok, IsTrue};
ghost use Rattle.std.specs.List.{All, list_all};
ghost use Rattle.st_sexp.specs.declared.form.Form.{Form};
ghost use Rattle.st_lattice.specs.Outline.{Outline};
ghost use Rattle.st_schema.specs.Meaning.{schema_of};
ghost use Rattle.st_query.specs.declared.statement.Statement.{Statement};
ghost use Rattle.st_state.specs.Legal.{IsLegal};
ghost use Rattle.st_state.specs.State.{empty_state};
ghost use Rattle.st_query.specs.Written.{is_written};
ghost use Rattle.st_meaning.specs.Runs.{states_after};
ghost use Rattle.statice.specs.declared.input.TheConstants.{MAX_INPUT};
ghost use Rattle.statice.specs.declared.status.Ended.{Ended};
ghost use Rattle.statice.specs.declared.status.Ended.TheVariants.{Refused, TooLong};
ghost use Rattle.statice.specs.Ending.{RunsOn, EndsBy, end_of};
ghost use Rattle.statice.specs.Fault.{IsFaulty};
ghost use Rattle.statice.specs.Form.{Program, IsProgram, IsNoProgram};

use st_meaning::laws_of_states;
use st_schema::laws_of_schemas;
use st_sexp::laws_of_texts;

/// A database whose schema was read is legal as long as it lives: while it is new, and after each of any transactions
/// that can be written, one after another, whether they are refused or not.
pub fn laws_of_databases()
    ensures new { (forms : List Form) (schema : Outline) → schema_of forms ≡ Ok schema → IsLegal (empty_state schema) }
    ensures later { (forms : List Form) (schema : Outline) → schema_of forms ≡ Ok schema → (transactions : List (List Statement)) →
        IsTrue (list_all (list_all is_written) transactions) → All IsLegal (states_after (empty_state schema) transactions) }
{
    laws_of_schemas();
    laws_of_states();
}

/// Each input is a program or has a fault, and never both. It is one program at most, and its fault has
/// one line at most.
pub fn laws_of_inputs()
    ensures some_outcome { (input : List ℕ) →
        ((program : Program) × IsProgram input program) ⊎ ((line : List ℕ) × IsFaulty input line) }
    ensures never_both { (input line : List ℕ) → IsFaulty input line → IsNoProgram input }
    ensures one_program { (input : List ℕ) (a b : Program) → IsProgram input a → IsProgram input b → a ≡ b }
    ensures one_line { (input a b : List ℕ) → IsFaulty input a → IsFaulty input b → a ≡ b }
{
    laws_of_texts();
    laws_of_schemas();
}

/// Where no call on the source or the sink fails, the input alone decides how `try` ends, want of memory aside: a program
/// ends as its transactions are refused or not, an input with a fault is refused, and one of too many bytes is too long.
pub fn laws_of_endings()
    ensures program { (input : List ℕ) (ended : Ended) (program : Program) → RunsOn input ended → length input ≤ MAX_INPUT → IsProgram input program → EndsBy (end_of program) ended }
    ensures faulty { (input line : List ℕ) (ended : Ended) → RunsOn input ended → length input ≤ MAX_INPUT → IsFaulty input line → EndsBy Refused ended }
    ensures too_long { (input : List ℕ) (ended : Ended) → RunsOn input ended → MAX_INPUT < length input → EndsBy TooLong ended }
{
    laws_of_inputs();
}
