//! The sizes of a book.

ghost use Rattle.std.specs.Prelude.{◌≤◌};

/// How many workers, retries and copies a book has.
#[derive(Clone, Copy)]
pub struct Sizes {
    pub workers: u32,
    pub retries: u32,
    pub copies: u32,
    ghost workers_fit: { (1 ≤ workers) × (workers ≤ 64) },
    ghost retries_fit: { retries ≤ 16 },
    ghost copies_fit: { (1 ≤ copies) × (copies ≤ 4) },
}
