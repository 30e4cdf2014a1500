//! Laws of names and numbers that no single call shows.

ghost use Rattle.std.specs.Prelude.{◌≡◌, ◌↔◌, ◌<◌, ◌^◌, ℕ, List, Some, true, decimal};
ghost use Rattle.std.specs.Cmp.{IsTotalOrder};
ghost use Rattle.std.specs.Ordering.{eq_by_cmp};
ghost use Rattle.object_name.specs.Name.{ObjectName, IsName, spelling, named_by, name_cmp};
ghost use Rattle.object_name.specs.Number.{number_of};

/// Two names with one spelling are one name.
pub fn one_spelling()
    ensures { (m : ObjectName) (n : ObjectName) → IsName m → IsName n → spelling m ≡ spelling n → m ≡ n }
{}

/// Reading is the inverse of spelling.
pub fn spellings_read_back()
    ensures spelled { (n : ObjectName) → IsName n → named_by (spelling n) ≡ Some n }
    ensures named { (text : List ℕ) (n : ObjectName) → named_by text ≡ Some n → IsName n × (text ≡ spelling n) }
{}

/// Reading is the inverse of writing, for numbers below 2^64.
pub fn numbers_read_back()
    ensures written { (n : ℕ) → n < 2 ^ 64 → number_of (decimal n) ≡ Some n }
    ensures numbered { (text : List ℕ) (n : ℕ) → number_of text ≡ Some n → (n < 2 ^ 64) × (text ≡ decimal n) }
{}

/// The order of names is total, and two names tie in it exactly where they are one.
pub fn names_are_ordered()
    ensures total { IsTotalOrder name_cmp }
    ensures ties { (m : ObjectName) (n : ObjectName) → (eq_by_cmp name_cmp m n ≡ true) ↔ (m ≡ n) }
{}
