//! What is asked of entities.
ghost use Rattle.std.specs.Prelude.{◌≡◌, All, [], IfOk};
ghost use Rattle.st_state.specs.State.{State};
ghost use Rattle.st_known.specs.Known.{IsKnown, AreKnown};
ghost use Rattle.st_meaning.specs.Selection.{entities_in};
ghost use Rattle.st_terms.specs.Looks.{Looks, Keeps};
ghost use Rattle.st_select.specs.Search.{IsTestOf, IsTypeOf, AdmitsTest, AdmitsTests, test_stores, tests_stores, type_stores, test_holds, all_hold};

use crate::Test;
use crate::compare::answer;
use crate::meaning::meaning_at;
use sqlite_items::Items;
use st_known::Known;
use st_plain::{Base, BaseFault};
use st_values::{Entities, EntityId};
use std::alloc::{AllocError, Global};

/// Whether a test is true of an entity.
fn holds<B: Base>(
    base: &mut B,
    alloc: Global,
    test: &Test,
    known: &Known,
) -> Result<bool, BaseFault>
    requires { IsTestOf (B.schema base.old) test.now }
    ensures looks { (w : B.Witness) (s : State) → B.agrees base.new w → B.stands base.old w s → IsKnown s known.now → AdmitsTest s known.now.entity test.now →
        Looks (B.stands base.new w s) (B.asks base.old base.new w) (B.reached base.new w) (λ truth. truth ≡ test_holds s known.now.entity test.now)
        (test_stores s.schema test.now) [] result }
    ensures keeps { Keeps (B.follows base.old base.new) (B.met base.old) (B.met base.new) result }
{
    let left = meaning_at(base, alloc, &test.left, known)?;
    let right = meaning_at(base, alloc, &test.right, known)?;
    Ok(answer(test.ask, left, right))
}

/// Whether each test is true of an entity. They are asked in turn, up to the first that is false.
pub(crate) fn all_hold<B: Base>(
    base: &mut B,
    alloc: Global,
    tests: &[Test],
    known: &Known,
) -> Result<bool, BaseFault>
    requires { All (IsTestOf (B.schema base.old)) tests.now }
    ensures looks { (w : B.Witness) (s : State) → B.agrees base.new w → B.stands base.old w s → IsKnown s known.now → AdmitsTests s tests.now known.now.entity →
        Looks (B.stands base.new w s) (B.asks base.old base.new w) (B.reached base.new w) (λ truth. truth ≡ all_hold s tests.now known.now.entity)
        (tests_stores s.schema tests.now) [] result }
    ensures keeps { Keeps (B.follows base.old base.new) (B.met base.old) (B.met base.new) result }
{
    for test in tests {
        if !holds(base, alloc, test, known)? {
            return Ok(false);
        }
    }
    Ok(true)
}

/// The live entities of a type that is known, descendants included.
pub(crate) fn entities_in<B: Base>(
    base: &mut B,
    alloc: Global,
    ty: Option<u16>,
) -> Result<Entities, BaseFault>
    requires { IsTypeOf (B.schema base.old) ty }
    ensures looks { (w : B.Witness) (s : State) → B.agrees base.new w → B.stands base.old w s →
        Looks (B.stands base.new w s) (B.asks base.old base.new w) (B.reached base.new w) (λ entities. entities ≡ entities_in s ty)
        (type_stores s.schema ty) [] result }
    ensures keeps { Keeps (B.follows base.old base.new) (B.met base.old) (B.met base.new) result }
{
    match ty {
        Some(ty) => base.list(alloc, ty),
        None => Ok(Items::new(alloc)),
    }
}

/// Entities of which nothing more is known.
pub(crate) fn unknown(alloc: Global, entities: &[EntityId]) -> Result<Items<Known>, AllocError>
    ensures { IfOk result (λ known. (s : State) → AreKnown s entities.now known) }
{
    let mut known = Items::new(alloc);
    for entity in entities {
        known.push(Known {
            entity: *entity,
            values: Items::new(alloc),
        })?;
    }
    Ok(known)
}
