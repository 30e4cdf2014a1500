//! Links to workers, and what a worker answers to a session.
#![tactic(auto)]

mod action;
mod exchange;
mod feeding;
mod framed;
mod inside_link;
mod link;
mod phase;
mod queue;
mod replies;
mod replying;
mod run_order;
mod script;
mod script_link;
mod sent;
mod serving;
mod stream_link;
mod tcp_link;
mod worker_end;

pub use action::Action;
pub use framed::Frames;
pub use inside_link::InsideLink;
pub use link::Link;
pub use phase::Phase;
pub use run_order::{RunOrder, Scripted};
pub use script_link::ScriptLink;
pub use sent::{Sent, only};
pub use serving::serve;
pub use stream_link::StreamLink;
pub use tcp_link::TcpLink;
pub use worker_end::WorkerEnd;
