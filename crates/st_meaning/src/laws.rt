ghost use Rattle.std.specs.Prelude.{◌≡◌, ℕ, ◌+◌, ◌<◌, List, length, Some, None, Option, IsTrue, IsPermutation};
ghost use Rattle.std.specs.List.{list_all};
ghost use Rattle.std.specs.Cmp.{IsTotalOrder};
ghost use Rattle.std.specs.declared.cmp.Ordering.TheVariants.{Equal};
ghost use Rattle.st_values.specs.declared.value.EntityId.{EntityId};
ghost use Rattle.st_values.specs.Arranged.{ascends};
ghost use Rattle.st_values.specs.Order.{entity_before};
ghost use Rattle.st_lattice.specs.Outline.{Outline, IsOrderly, type_named};
ghost use Rattle.st_lattice.specs.Consistent.{IsConsistent};
ghost use Rattle.st_query.specs.declared.statement.Statement.{Statement};
ghost use Rattle.st_query.specs.declared.statement.Statement.TheVariants as statement;
ghost use Rattle.st_query.specs.declared.query.Query.{Query};
ghost use Rattle.st_query.specs.declared.term.Term.{Term};
ghost use Rattle.st_query.specs.declared.term.Variable.{Variable};
ghost use Rattle.st_query.specs.Written.{is_written};
ghost use Rattle.st_state.specs.declared.refusal.Refusal.{Refusal};
ghost use Rattle.st_state.specs.declared.refusal.Refusal.TheVariants.{NumbersSpent};
ghost use Rattle.st_state.specs.Legal.{IsNearlyLegal, IsLegal};
ghost use Rattle.st_state.specs.State.{State, empty_state, entity_made};
ghost use Rattle.st_meaning.specs.Laws.{are_by, order_of_rules, IsFirst};
ghost use Rattle.st_meaning.specs.Rules.{rules, refusal, spent_type};
ghost use Rattle.st_meaning.specs.Runs.{RefusedAt, runs};
ghost use Rattle.st_meaning.specs.Selection.{selects, selected, written_before, written_order};
ghost use Rattle.st_meaning.specs.Statements.{Present, does};

/// Does nothing: its contract says that a refusal is by one rule alone. Each rule gives only
/// refusals of its own number, and the refusal of a statement is that of the first rule that gives one. Where all
/// serials of a type were given out, the refusal names the type as it was written.
pub fn laws_of_refusals()
    ensures own_numbers { (p : Present) (s : Statement) → IsTrue (are_by order_of_rules (rules p s)) }
    ensures first { (p : Present) (s : Statement) (r : Refusal) → refusal p s ≡ Some r → IsFirst (rules p s) r }
    ensures spent { (state : State) (ty : List ℕ) (r : Refusal) → spent_type state (type_named state.schema ty) ≡ Some r → r ≡ NumbersSpent ty }
{}

/// Does nothing: its contract says which statements leave the state as it was, and that a refused
/// transaction does, by the number of the statement that was refused.
pub fn laws_of_runs()
    ensures print { (p : Present) (terms : List Term) → does p (statement.Print terms) ≡ p }
    ensures for_each { (p : Present) (query : Query) → does p (statement.ForEach query) ≡ p }
    ensures binding { (p : Present) (var : List ℕ) (term : Term) → (does p (statement.Let var term)).state ≡ p.state }
    ensures find { (p : Present) (var ty key : List ℕ) (term : Term) → (does p (statement.Find var ty key term)).state ≡ p.state }
    ensures refused { (state : State) (statements : List Statement) (r : RefusedAt) → (runs state statements).refused ≡ Some r → (runs state statements).state ≡ state }
    ensures refused_at { (state : State) (statements : List Statement) (r : RefusedAt) → (runs state statements).refused ≡ Some r → r.statement ≡ length (runs state statements).answers + 1 }
    ensures committed { (state : State) (statements : List Statement) → (runs state statements).refused ≡ None → length (runs state statements).answers ≡ length statements }
{}

/// Does nothing: its contract says that the written order arranges a selection, and in exactly one
/// way, where the live entities stand in order.
pub fn laws_of_orders()
    ensures all { (state : State) (variables : List Variable) (query : Query) → IsPermutation (selects state variables query) (selected state variables query) }
    ensures ordered { (state : State) (variables : List Variable) (query : Query) → IsTrue (ascends entity_before state.live) → IsTrue (ascends (written_before state variables query) (selected state variables query)) }
    ensures one_way { (state : State) (variables : List Variable) (query : Query) → IsTrue (ascends entity_before state.live) → (entities : List EntityId) → IsPermutation (selects state variables query) entities → IsTrue (ascends (written_before state variables query) entities) → entities ≡ selected state variables query }
    ensures total { (state : State) (variables : List Variable) (query : Query) → IsTotalOrder (written_order state variables query) }
    ensures exact { (state : State) (variables : List Variable) (query : Query) (a b : EntityId) → written_order state variables query a b ≡ Equal → a ≡ b }
{}

/// Does nothing: its contract says that the empty state is legal, that a statement of a legal state
/// leaves a legal state where no rule refuses it, and that a transaction does in any case. A new
/// entity by itself leaves a state that is nearly legal: its cells are still to come.
pub fn laws_of_states()
    ensures empty { (schema : Outline) → IsOrderly schema → IsConsistent schema → IsLegal (empty_state schema) }
    ensures made { (state : State) (ty : ℕ) → IsNearlyLegal state → ty < length state.schema.names → IsNearlyLegal (entity_made state ty) }
    ensures statement { (p : Present) → IsLegal p.state → (s : Statement) → IsTrue (is_written s) → refusal p s ≡ None → IsLegal (does p s).state }
    ensures run { (state : State) (statements : List Statement) → IsLegal state → IsTrue (list_all is_written statements) → IsLegal (runs state statements).state }
{}
