//! Laws of the definitions, and worked rows: functions that do nothing, and whose contracts state them.
ghost use Rattle.std.specs.Prelude.{◌≡◌, true, pos, negsuc, [], ◌∷◌, length};
ghost use Rattle.std.specs.Ordering.{nat_cmp};
ghost use Rattle.std.specs.Cmp.Lexicographic.{slice_cmp};
ghost use Rattle.st_values.specs.declared.value.Kind.{Kind};
ghost use Rattle.st_values.specs.declared.value.Kind.TheVariants as kind;
ghost use Rattle.st_values.specs.declared.value.Value.{Value};
ghost use Rattle.st_values.specs.declared.value.Value.TheVariants.{Int, Bool as Truth, Text, Entity};
ghost use Rattle.st_values.specs.Order.{value_order};
ghost use Rattle.st_keys.specs.Keys.{Fits, key, width};
ghost use Rattle.st_keys.specs.Causes.{IsNoKey};

/// A key has the width of its kind, tells apart the values that fit a kind, and stands among the other keys of the
/// kind as its value among their values.
pub fn laws_of_keys()
    ensures width { (kind : Kind) (a : Value) → Fits kind a → length (key kind a) ≡ width kind }
    ensures round_trip { (kind : Kind) (a b : Value) → Fits kind a → Fits kind b →
        key kind a ≡ key kind b → a ≡ b }
    ensures order { (kind : Kind) (a b : Value) → Fits kind a → Fits kind b →
        slice_cmp nat_cmp (key kind a) (key kind b) ≡ value_order a b }
{}

/// Worked keys, by the definitions: integers, a truth value, texts and an entity; and bytes that are no text's key.
pub fn rows_of_keys()
    ensures five { key kind.Int (Int (pos 5)) ≡ 0x80 ∷ 0 ∷ 0 ∷ 0 ∷ 0 ∷ 0 ∷ 0 ∷ 5 ∷ [] }
    ensures minus_one { key kind.Int (Int (negsuc 0)) ≡
        0x7f ∷ 0xff ∷ 0xff ∷ 0xff ∷ 0xff ∷ 0xff ∷ 0xff ∷ 0xff ∷ [] }
    ensures truth { key kind.Bool (Truth true) ≡ 1 ∷ [] }
    ensures two_letters { key (kind.Text 4) (Text (0x61 ∷ 0x62 ∷ [])) ≡ 0x61 ∷ 0x62 ∷ 0 ∷ 0 ∷ 2 ∷ [] }
    ensures zero_at_the_end { key (kind.Text 4) (Text (0x61 ∷ 0x62 ∷ 0 ∷ [])) ≡
        0x61 ∷ 0x62 ∷ 0 ∷ 0 ∷ 3 ∷ [] }
    ensures entity { key (kind.Entity 1) (Entity (record { ty = 1; serial = 12 })) ≡
        0 ∷ 1 ∷ 0 ∷ 0 ∷ 0 ∷ 12 ∷ [] }
    ensures no_text { IsNoKey (kind.Text 4) (0x61 ∷ 0x62 ∷ 0 ∷ 1 ∷ 2 ∷ []) }
{}
