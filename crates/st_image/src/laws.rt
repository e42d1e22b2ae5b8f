//! Laws of the definitions: a function that does nothing, and whose contract states them.
ghost use Rattle.std.specs.Prelude.{◌≡◌, ◌+◌, ◌^◌, ◌<◌, ◌≤◌, ◌⊎◌, ℕ, List, length};
ghost use Rattle.std.specs.Int.{w16, w32, to_be_bytes};
ghost use Rattle.st_image.specs.declared.wanted.Wanted.{Wanted};
ghost use Rattle.st_image.specs.declared.wanted.Wanted.TheVariants.{Free};
ghost use Rattle.st_image.specs.Bytes.{number, part};
ghost use Rattle.st_image.specs.Fields.{blank, last_serial_of, next_of, rows_of, with_last_serial, with_part};
ghost use Rattle.st_image.specs.Grammar.{IsPage, IsRowPage};
ghost use Rattle.st_image.specs.Prefixes.{IsFirstWrong};

/// Bytes that leave a grammar aren't in it; a page of zeros is the one that isn't used. What is written at a place of a
/// page is read there, and nothing else of it changes. A number of two or four bytes is read as it was written. The last
/// serial of a page of rows may be any, if its store is one of entities, and nothing else changes with it.
pub fn laws_of_pages()
    ensures wrong { (wanted : Wanted) (page : List ℕ) (place : ℕ) → IsFirstWrong (IsPage wanted) page place → IsPage wanted page → ⊥ }
    ensures free { IsPage Free blank }
    ensures place { (at : ℕ) (bytes page : List ℕ) → at + length bytes ≤ length page →
        part at (length bytes) (with_part at bytes page) ≡ bytes }
    ensures elsewhere { (at place size : ℕ) (bytes page : List ℕ) → at + length bytes ≤ length page →
        (place + size ≤ at) ⊎ (at + length bytes ≤ place) →
        part place size (with_part at bytes page) ≡ part place size page }
    ensures length { (at : ℕ) (bytes page : List ℕ) → at + length bytes ≤ length page →
        length (with_part at bytes page) ≡ length page }
    ensures two_bytes { (n : ℕ) → n < 2 ^ 16 → number (to_be_bytes w16 n) ≡ n }
    ensures four_bytes { (n : ℕ) → n < 2 ^ 32 → number (to_be_bytes w32 n) ≡ n }
    ensures last_serial { (kind store key width serial : ℕ) (page : List ℕ) → store < 65536 → serial < 2 ^ 32 →
        IsRowPage kind store key width page →
        IsRowPage kind store key width (with_last_serial serial page)
        × (rows_of width (with_last_serial serial page) ≡ rows_of width page)
        × (next_of (with_last_serial serial page) ≡ next_of page)
        × (last_serial_of (with_last_serial serial page) ≡ serial) }
{}
