//! Lists after their number.

ghost use Rattle.std.specs.Prelude.{◌≡◌, ◌<◌, ◌^◌, ◌++◌, length, OnOk};
ghost use Rattle.std.specs.List.{flat_map};
ghost use Rattle.thunk_codec.specs.Job.{encoded_count};
ghost use Rattle.job_wire.specs.Gives.{Gives};
ghost use Rattle.job_wire.specs.Reading.{list_at, things_at};

use crate::fault::ReadFault;
use crate::field::Field;
use crate::number::count_at;
use object_name::{Bytes, Many};
use std::alloc::{AllocError, Global};

/// So many things. Memory is taken as they are read, and none for those that aren't there.
fn things_at<T: Field>(
    alloc: Global,
    number: u32,
    bytes: &[u8],
) -> Result<(Many<T>, &[u8]), ReadFault>
    ensures { Gives (λ read. (read.0, read.1.now)) result (things_at T.at number bytes.now) }
{
    let mut things = Many::new(alloc);
    let mut rest = bytes;
    'things: for _ in 0..number {
        let (thing, after) = T::read(alloc, rest)?;
        things.push(thing)?;
        rest = after;
    }
    Ok((things, rest))
}

/// A count, and so many things.
#[tactic(auto, unfolding(crate::specs::Reading::list_at))]
pub(crate) fn list_at<T: Field>(alloc: Global, bytes: &[u8]) -> Result<(Many<T>, &[u8]), ReadFault>
    ensures { Gives (λ read. (read.0, read.1.now)) result (list_at T.at bytes.now) }
{
    let (number, rest) = count_at(bytes)?;
    things_at(alloc, number, rest)
}

/// Appends a count, and so many things.
pub(crate) fn write_list<T: Field>(things: &[T], out: &mut Bytes) -> Result<(), AllocError>
    requires number { length things.now < 2 ^ 32 }
    requires size { length (flat_map T.spelled things.now) < 2 ^ 32 }
    ensures { OnOk result (out.new ≡ out.old ++ (encoded_count (length things.now) ++ flat_map T.spelled things.now)) }
{
    out.append(&(things.len() as u32).to_be_bytes())?;
    'things: for thing in things {
        thing.write(out)?;
    }
    Ok(())
}
