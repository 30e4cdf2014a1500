//! Why a link fails.

ghost use Rattle.std.specs.Prelude.{◌≡◌};
ghost use Rattle.tool_bin.specs.LinkSteps.{fault_status};

use crate::status::{BAD_ARCHIVE, BAD_FORM, DUPLICATE_SYMBOL, NOT_AN_OBJECT, UNDEFINED_SYMBOL};

/// Why a link fails.
#[derive(Clone, Copy, Debug, Drop)]
pub(crate) enum LinkFault {
    BadForm,
    BadArchive,
    DuplicateSymbol,
    UndefinedSymbol,
    NotAnObject,
}

/// The status of a fault.
pub(crate) fn fault_status(fault: LinkFault) -> u8
    ensures { result ≡ fault_status fault }
{
    match fault {
        LinkFault::BadForm => BAD_FORM,
        LinkFault::BadArchive => BAD_ARCHIVE,
        LinkFault::DuplicateSymbol => DUPLICATE_SYMBOL,
        LinkFault::UndefinedSymbol => UNDEFINED_SYMBOL,
        LinkFault::NotAnObject => NOT_AN_OBJECT,
    }
}
