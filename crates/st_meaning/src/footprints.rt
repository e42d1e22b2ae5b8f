ghost use Rattle.std.specs.Prelude.{◌≡◌, ℕ, List, [], ◌∷◌, codes};
ghost use Rattle.st_query.specs.declared.term.Term.{Term};
ghost use Rattle.st_query.specs.declared.term.Term.TheVariants as term;
ghost use Rattle.st_query.specs.Footprint.{footprint};
ghost use Rattle.st_meaning.specs.Lines.{client_lines};
ghost use Rattle.st_meaning.specs.Rows.{lines, path};
ghost use Rattle.st_meaning.specs.Schemas.{club, pets, staff};
ghost use Rattle.st_meaning.specs.Scripts.Footprints;

/// Does nothing: its contract computes footprints that were worked out by hand, without variables.
pub fn rows_of_footprints()
    ensures make { footprint club [] Footprints.make_person ≡ 0 ∷ 131072 ∷ 196609 ∷ [] }
    ensures inverse_path { footprint club [] Footprints.print_rooms ≡ 1 ∷ 65540 ∷ 196612 ∷ [] }
    ensures delete { footprint club [] Footprints.delete_person ≡ 0 ∷ 1 ∷ 65540 ∷ 131072 ∷ 196609 ∷ 196612 ∷ [] }
    ensures set { footprint club [] Footprints.set_boss ≡ 0 ∷ 196609 ∷ [] }
    ensures find { footprint pets [] Footprints.find_dog ≡ 0 ∷ 131072 ∷ [] }
    ensures for_each { footprint staff [] Footprints.each_person ≡ 0 ∷ 1 ∷ [] }
{}

/// Does nothing: its contract computes what a script prints that takes the last serial of a type
/// and wants one more, and says that the paths of the scripts are those of terms.
pub fn rows_of_serials()
    ensures spent { client_lines Footprints.nearly_spent Footprints.last_serials ≡ lines (codes "2 1.1 = person#4294967295" ∷ codes "3 1.1 refused 0 9 person" ∷ []) }
    ensures paths { (feature : List ℕ) (inner : Term) → path feature inner ≡ term.Path feature inner }
{}
