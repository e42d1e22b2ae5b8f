ghost use Rattle.std.specs.Prelude.{◌≡◌, [], ◌∷◌, codes};
ghost use Rattle.st_meaning.specs.Lines.{output_of};
ghost use Rattle.st_meaning.specs.Schemas.{tiny};
ghost use Rattle.st_meaning.specs.Rows.{lines, row_empty, row_made, row_unset, row_bound_anew, row_set, row_cleared, row_escaped, row_extremes, row_literals};

/// Does nothing: its contract computes what transactions print that were worked out by hand. They
/// run over an empty database of the schema `tiny`, and each clause is named as its transaction.
pub fn worked_rows()
    ensures empty { output_of tiny row_empty ≡ lines (codes "1 1.1 commit 1" ∷ []) }
    ensures made { output_of tiny row_made ≡ lines (codes "2 1.1 = person#1 \"Ada\" 36" ∷ codes "3 1.1 commit 1" ∷ []) }
    ensures unset { output_of tiny row_unset ≡ lines (codes "2 1.1 = null" ∷ codes "3 1.1 commit 1" ∷ []) }
    ensures bound_anew { output_of tiny row_bound_anew ≡ lines (codes "2 1.1 = person#1" ∷ codes "4 1.1 = person#2" ∷ codes "5 1.1 commit 1" ∷ []) }
    ensures set { output_of tiny row_set ≡ lines (codes "3 1.1 = 37" ∷ codes "5 1.1 = 37" ∷ codes "6 1.1 commit 1" ∷ []) }
    ensures cleared { output_of tiny row_cleared ≡ lines (codes "3 1.1 = null" ∷ codes "4 1.1 commit 1" ∷ []) }
    ensures escaped { output_of tiny row_escaped ≡ lines (codes "2 1.1 = \"\\\"\\\\\\n\"" ∷ codes "3 1.1 commit 1" ∷ []) }
    ensures extremes { output_of tiny row_extremes ≡ lines (codes "3 1.1 = -9223372036854775808 9223372036854775807" ∷ codes "4 1.1 commit 1" ∷ []) }
    ensures literals { output_of tiny row_literals ≡ lines (codes "2 1.1 = null true false person#1 null" ∷ codes "3 1.1 commit 1" ∷ []) }
{}
