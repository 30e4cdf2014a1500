//! Laws of cuts that no single call shows.

ghost use Rattle.std.specs.Prelude.{◌≡◌, ◌++◌, ◌∷◌, [], ℕ, List, Some, IsTrue};
ghost use Rattle.text_lines.specs.Cuts.{before_feed, has_no, split_at_byte, strip_prefix};

/// A prefix is stripped exactly from a text that begins with it.
pub fn prefixes_are_stripped()
    ensures takes { (prefix : List ℕ) (text : List ℕ) (rest : List ℕ) → strip_prefix prefix text ≡ Some rest → text ≡ prefix ++ rest }
    ensures again { (prefix : List ℕ) (rest : List ℕ) → strip_prefix prefix (prefix ++ rest) ≡ Some rest }
{}

/// A line feed is taken away exactly from a text that ends with one.
pub fn feeds_are_taken_away()
    ensures takes { (text : List ℕ) (before : List ℕ) → before_feed text ≡ Some before → text ≡ before ++ 10 ∷ [] }
    ensures again { (before : List ℕ) → before_feed (before ++ 10 ∷ []) ≡ Some before }
{}

/// A text is split at the first stop byte.
pub fn texts_are_split()
    ensures takes { (stop : ℕ) (text : List ℕ) (cut : List ℕ × List ℕ) → split_at_byte stop text ≡ Some cut → (text ≡ cut.0 ++ stop ∷ cut.1) × IsTrue (has_no stop cut.0) }
    ensures again { (stop : ℕ) (before : List ℕ) (rest : List ℕ) → IsTrue (has_no stop before) → split_at_byte stop (before ++ stop ∷ rest) ≡ Some (before, rest) }
{}
