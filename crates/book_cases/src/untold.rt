//! A function of which nothing is told.

ghost use Rattle.book_cases.specs.Untold.{none_told, some_outcome, some_fits};

use thunk_codec::Function;

/// Tells the outcome of no job, so a book of it takes whatever fits.
pub struct Untold;

impl Function for Untold {
    ghost outcome = { some_outcome };

    ghost tells = { none_told };

    ghost fits = { some_fits };
}
