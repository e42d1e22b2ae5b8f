ghost use Rattle.std.specs.Prelude.{ℕ, List, IsTrue};
ghost use Rattle.std.specs.List.{list_all};
ghost use Rattle.st_lattice.specs.Outline.{Outline};
ghost use Rattle.st_query.specs.declared.statement.Statement.{Statement};
ghost use Rattle.st_query.specs.declared.term.Variable.{Variable};
ghost use Rattle.st_terms.specs.Looks.{AreAmong};
ghost use Rattle.st_terms.specs.Checked.{touched};
ghost use Rattle.st_running.specs.Steps.{is_in_footprint};

/// Does nothing: its contract says that the stores which a statement asks for are of its footprint, as far as the schema has
/// them.
#[tactic(auto, using(crate::proofs::Footprints::asked_in_footprint))]
pub fn laws_of_footprints()
    ensures { (schema : Outline) (variables : List Variable) (statement : Statement) (asked : List ℕ) → AreAmong asked (touched schema variables statement) →
        IsTrue (list_all (is_in_footprint schema variables statement) asked) }
{}
