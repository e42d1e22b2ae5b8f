ghost use Rattle.std.specs.Prelude.{◌≡◌, ℕ, ◌==◌, List, map, filter, IsPermutation, IsTrue};
ghost use Rattle.st_values.specs.declared.value.Value.{Value};
ghost use Rattle.st_values.specs.Order.{same_value};
ghost use Rattle.st_values.specs.Arranged.{ascends};
ghost use Rattle.st_state.specs.declared.triple.Triple.{Triple};
ghost use Rattle.st_state.specs.State.{triple_before, turned, pair_before, pair_of, converse};

/// Does nothing: its contract says that the converse of an attribute is in order and has exactly its
/// triples turned round, and that the entities that have a value are those that it lists with it.
pub fn laws_of_converses()
    ensures in_order { (attribute : ℕ) (triples : List Triple) → IsTrue (ascends triple_before triples) → IsTrue (ascends pair_before (converse attribute triples)) }
    ensures all { (attribute : ℕ) (triples : List Triple) → IsTrue (ascends triple_before triples) → IsPermutation (map pair_of (filter (λ t. t.attribute == attribute) triples)) (converse attribute triples) }
    ensures entities { (attribute : ℕ) (triples : List Triple) → IsTrue (ascends triple_before triples) → (value : Value) → turned attribute value triples ≡ map (λ p. p.entity) (filter (λ p. same_value p.value value) (converse attribute triples)) }
{}
