//! Laws of the definitions, each by a function that does nothing.
ghost use Rattle.std.specs.Prelude.{◌≡◌, ◌⊎◌, List, ℕ, Result};
ghost use Rattle.st_token.specs.declared.fault.SexpFault.{SexpFault};
ghost use Rattle.st_sexp.specs.declared.form.Form.{Form};
ghost use Rattle.st_sexp.specs.Reading.{Due, WantsMemory};

/// Exactly one answer is due for each text, want of memory aside: a text that spells forms spells no others and
/// has no fault, and each other text has one first fault.
pub fn laws_of_texts()
    ensures no_other { (text : List ℕ) (a b : Result (List Form) SexpFault) → Due text a → Due text b →
        WantsMemory a ⊎ WantsMemory b ⊎ (a ≡ b) }
    ensures some_answer { (text : List ℕ) →
        (answer : Result (List Form) SexpFault) × Due text answer × ¬ (WantsMemory answer) }
{}
