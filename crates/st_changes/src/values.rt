//! The values of a statement's terms.
ghost use Rattle.std.specs.Prelude.{◌≡◌, ◌++◌};
ghost use Rattle.st_state.specs.State.{State};
ghost use Rattle.st_meaning.specs.Terms.{term_value};
ghost use Rattle.st_terms.specs.Looks.{Looks, Keeps};
ghost use Rattle.st_terms.specs.Routes.{AdmitsTerm, term_stores, term_places};

use st_lattice::Schema;
use st_plain::{Base, BaseFault};
use st_query::{Term, Variable};
use st_terms::term_value;
use st_values::Value;
use std::alloc::Global;

/// The values of two terms.
#[derive(Debug, Drop)]
pub(crate) struct Given {
    /// What is to be changed.
    pub target: Value,
    /// What is written, put in or taken out.
    pub value: Value,
}

/// The values of two terms, the first one first.
pub(crate) fn operands<B: Base>(
    base: &mut B,
    alloc: Global,
    schema: &Schema,
    variables: &[Variable],
    target: &Term,
    value: &Term,
) -> Result<Given, BaseFault>
    requires { schema.now ≡ B.schema base.old }
    ensures looks { (w : B.Witness) (s : State) → B.agrees base.new w → B.stands base.old w s → AdmitsTerm s variables.now target.now → AdmitsTerm s variables.now value.now →
        Looks (B.stands base.new w s) (B.asks base.old base.new w) (B.reached base.new w)
        (λ given. (given.target ≡ term_value s variables.now target.now) × (given.value ≡ term_value s variables.now value.now))
        (term_stores s.schema variables.now target.now ++ term_stores s.schema variables.now value.now)
        (term_places s variables.now target.now ++ term_places s variables.now value.now) result }
    ensures keeps { Keeps (B.follows base.old base.new) (B.met base.old) (B.met base.new) result }
{
    let first = term_value(base, alloc, schema, variables, target)?;
    let second = term_value(base, alloc, schema, variables, value)?;
    Ok(Given {
        target: first,
        value: second,
    })
}
