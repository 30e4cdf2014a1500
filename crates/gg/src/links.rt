//! `gg force` over links: workers inside the process, or workers that are reached over the network.

use blob_store::FolderKeeper;
use file_tree::{FolderTree, STORE};
use gg_cli::{ForceEnd, LinkChoice, Status, force_top};
use object_name::{Bytes, Many, Sink, TryCopy, WriteSink};
use sandbox_run::Cards;
use std::alloc::{AllocError, Global};
use std::sync::Wait;
use std::thread::Threads;
use std::{io, process};
use worker_link::{InsideLink, Link, TcpLink};

/// The most links.
const MAX_LINKS: usize = 64;

/// So many links to workers inside the process.
fn inside_links(alloc: Global, count: u32) -> Result<Many<InsideLink<Cards>>, AllocError> {
    let mut links = Many::new(alloc);
    'links: for _ in 0..count {
        links.push(InsideLink::new(alloc, Cards))?;
    }
    Ok(links)
}

/// A link to the worker at each address.
fn tcp_links(
    rt: &HostRuntime,
    addresses: &[Bytes],
) -> Result<Many<TcpLink<HostRuntime>>, AllocError> {
    let alloc = rt.alloc();
    let mut links = Many::new(alloc);
    'links: for address in addresses {
        let net = HostRuntime::clone(rt)?;
        links.push(TcpLink::new(alloc, net, address.copy(alloc)?))?;
    }
    Ok(links)
}

/// Does a command line over these links, 1 to 64, as the words that chose them want it.
fn force_over<R: Threads + Wait + Sync, L: Link + Drop + Send, E: Sink>(
    rt: &HostRuntime,
    threads: &R,
    words: &[String],
    links: Many<L>,
    err: &mut E,
) -> Result<Status, AllocError> {
    let count = links.len();
    if count == 0 || count > MAX_LINKS {
        return Ok(Status::Usage);
    }
    let alloc = rt.alloc();
    let process = process::id(rt.process());
    let mut keeper = FolderKeeper::new(alloc, HostRuntime::clone(rt)?, STORE, process)?;
    let mut tree = FolderTree::new(alloc, HostRuntime::clone(rt)?, crate::FOLDER, process)?;
    let stdout = rt.stdout();
    let mut out = WriteSink::new(io::writer(&stdout));
    let ForceEnd { status, .. } = force_top(
        threads,
        alloc,
        words,
        &mut keeper,
        &mut tree,
        links,
        &mut out,
        err,
    );
    Ok(status)
}

/// Does the words of `force` with links, over links as the words choose them, with threads of this handle.
pub fn force<R: Threads + Wait + Sync, E: Sink>(
    rt: &HostRuntime,
    threads: &R,
    words: &[String],
    choice: &LinkChoice,
    err: &mut E,
) -> Result<Status, AllocError> {
    match choice {
        LinkChoice::Jobs(count) => {
            let links = inside_links(rt.alloc(), *count)?;
            force_over(rt, threads, words, links, err)
        }
        LinkChoice::Workers(addresses) => {
            let links = tcp_links(rt, addresses.as_slice())?;
            force_over(rt, threads, words, links, err)
        }
    }
}
