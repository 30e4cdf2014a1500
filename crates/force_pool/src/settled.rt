//! Jobs that are offered ahead.

ghost use Rattle.std.specs.Prelude.{◌≡◌, IfOk, IfSome, IfNone, OnErr};
ghost use Rattle.force_pool.specs.Settling.{Settles, OffersSome, IsFull, TakesOn, KeepsBack};

use force_core::{Book, Need, Offer};
use need_eval::Prepared;
use object_name::Many;
use std::alloc::{AllocError, Global};
use std::marker::Model;
use thunk_codec::Function;

/// What became of some jobs that were offered ahead.
#[derive(Drop)]
pub struct Settled {
    ids: Many<u64>,
    left: Many<Prepared>,
}

impl Model for Settled {
    ghost use Rattle.force_pool.specs.Settling.{Settlement};

    ghost Value = { Settlement };

    ghost view = { λ s. record { ids = s.ids; left = s.left } };
}

impl Settled {
    /// The numbers of the jobs that the book has taken on or knew, in order.
    pub fn ids(&self) -> &[u64]
        ensures { result.now ≡ self.now.ids }
    {
        self.ids.as_slice()
    }

    /// The numbers, and the jobs that are left.
    pub(crate) fn into_parts(self) -> (Many<u64>, Many<Prepared>) {
        (self.ids, self.left)
    }

    /// The first job for which the book had no room, and those after it.
    pub fn left(&self) -> &[Prepared]
        ensures { result.now ≡ self.now.left }
    {
        self.left.as_slice()
    }
}

/// Offers jobs ahead, in order, up to the first for which the book has no room. Where memory is refused, those of a prefix of the
/// list were offered.
pub fn settle<F: Function>(
    alloc: Global,
    book: &mut Book<F>,
    ready: Many<Prepared>,
) -> Result<Settled, AllocError>
    ensures settles { IfOk result (λ s. Settles book.old book.new ready s) }
    ensures prefix { OnErr result (OffersSome book.old book.new ready) }
{
    let mut ids = Vec::new(alloc);
    let mut left = Many::new(alloc);
    'jobs: for prepared in ready.0 {
        ids.reserve(1)?;
        let taken = settle_one(alloc, book, prepared, &mut left)?;
        if let Some(id) = taken {
            ids.push_reserved(id);
        }
    }
    Ok(Settled {
        ids: Many(ids),
        left,
    })
}

/// Offers a job ahead, where each one before it was taken on, and gives its number. Else it is left.
fn settle_one<F: Function>(
    alloc: Global,
    book: &mut Book<F>,
    prepared: Prepared,
    left: &mut Many<Prepared>,
) -> Result<Option<u64>, AllocError>
    requires full { IsFull book.old left.old }
    ensures some { IfOk result (λ taken. IfSome taken (λ id. TakesOn book.old book.new left.old left.new prepared id)) }
    ensures none { IfOk result (λ taken. IfNone taken (KeepsBack book.old book.new left.old left.new prepared)) }
    ensures err { OnErr result (book.new ≡ book.old) }
{
    if !left.is_empty() {
        left.push(prepared)?;
        return Ok(None);
    }
    match book.offer(alloc, prepared, Need::Ahead)? {
        Offer::Offered(id) => Ok(Some(id)),
        Offer::Known(id) => Ok(Some(id)),
        Offer::Full(back) => {
            left.push(back)?;
            Ok(None)
        }
    }
}
