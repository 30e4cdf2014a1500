//! Names of objects, the numbers and bytes that texts are made of, and the ends that bytes come from and go to.
#![tactic(auto)]

mod bytes;
mod calls;
mod kind;
pub mod laws;
mod many;
mod mem_sink;
mod mem_source;
mod name;
mod number;
mod read_source;
mod sink;
mod source;
mod spelling;
mod trouble;
mod try_again;
mod try_copy;
mod write_sink;

pub use bytes::Bytes;
pub use calls::Calls;
pub use kind::{Kind, MAX_OUTPUTS, kind_of};
pub use many::Many;
pub use mem_sink::MemSink;
pub use mem_source::MemSource;
pub use name::{MAX_SIZE, Name, SPELLING_LEN, TooLong, name_of};
pub use number::{read_number, write_number};
pub use read_source::ReadSource;
pub use sink::{Sink, write_all};
pub use source::{ReadEnd, Source, read_all};
pub use trouble::Trouble;
pub use try_copy::TryCopy;
pub use write_sink::WriteSink;
