//! The paths of inputs in jobs.

ghost use Rattle.std.specs.Prelude.{◌≡◌, IsTrue, IfOk};
ghost use Rattle.thunk_codec.specs.Path.{is_path};
ghost use Rattle.build_plan.specs.Numbered.{last_digit, four_digits};

use std::alloc::{AllocError, Global};
use thunk_codec::Path;

/// A text that is a path, as one.
pub fn known_path(alloc: Global, text: &[u8]) -> Result<Path, AllocError>
    requires { IsTrue (is_path text.now) }
    ensures { IfOk result (λ path. path ≡ text.now) }
{
    match Path::read(alloc, text)? {
        Some(path) => Ok(path),
        None => unreachable!(),
    }
}

/// The last decimal digit of a number.
fn last_digit(number: usize) -> u8
    ensures { result ≡ last_digit number }
{
    b'0' + (number % 10) as u8
}

/// The last four digits of a number: `0000`, `0001` and so on.
pub fn four_digits(number: usize) -> [u8; 4]
    ensures { result ≡ four_digits number }
{
    [
        last_digit(number / 1000),
        last_digit(number / 100),
        last_digit(number / 10),
        last_digit(number),
    ]
}
