//! The program gg: makes the store, the tree, the outputs and the words real, and hands them to the call that does the work.
#![tactic(auto)]

mod links;
mod worker;

use blob_store::FolderKeeper;
use file_tree::{FolderTree, STORE};
use gg_cli::{Command, Status, WordFault, gg_top, read_words};
use object_name::{ReadSource, Sink, WriteSink, write_all};
use std::alloc::AllocError;
use std::io::ErrorKind;
use std::process::ExitCode;
use std::sync::Wait;
use std::thread::Threads;
use std::{env, io, process};

/// The current folder, whose files are the tree.
const FOLDER: &str = ".";

/// The words after the program's own. Words that aren't text are no command line, as no words are.
fn words(rt: &HostRuntime) -> Result<Vec<String>, AllocError> {
    let mut words = Vec::new(rt.alloc());
    match env::args(rt) {
        Ok(args) => {
            for word in args.skip(1) {
                words.push(word)?;
            }
        }
        Err(error) if error.kind() == ErrorKind::OutOfMemory => return Err(AllocError),
        Err(_) => {}
    }
    Ok(words)
}

/// Does a command line without links.
fn do_here<E: Sink>(rt: &HostRuntime, words: &[String], err: &mut E) -> Result<Status, AllocError> {
    let alloc = rt.alloc();
    let process = process::id(rt.process());
    let mut keeper = FolderKeeper::new(alloc, HostRuntime::clone(rt)?, STORE, process)?;
    let mut tree = FolderTree::new(alloc, HostRuntime::clone(rt)?, FOLDER, process)?;
    let mut input = ReadSource::new(rt.reader());
    let stdout = rt.stdout();
    let mut out = WriteSink::new(io::writer(&stdout));
    Ok(gg_top(
        alloc,
        words,
        &mut keeper,
        &mut tree,
        &mut input,
        &mut out,
        err,
    ))
}

/// Does the command line of the process, with threads of this handle.
fn run<R: Threads + Wait + Sync, E: Sink>(
    rt: &HostRuntime,
    threads: &R,
    err: &mut E,
) -> Result<Status, AllocError> {
    let words = words(rt)?;
    let words = words.as_slice();
    match read_words(rt.alloc(), words) {
        Ok(Command::ForceWith { links, .. }) => links::force(rt, threads, words, &links, err),
        Ok(Command::Worker { address, times }) => worker::serve(rt, address.as_slice(), times, err),
        Err(WordFault::Memory) => Err(AllocError),
        _ => do_here(rt, words, err),
    }
}

fn main(rt: HostRuntime) -> ExitCode {
    let stderr = rt.stderr();
    let mut err = WriteSink::new(io::writer(&stderr));
    let status = match run(&rt, &rt, &mut err) {
        Ok(status) => status,
        Err(AllocError) => {
            // The status says so even where standard error can't be written.
            let _ = write_all(&mut err, b"gg: want of memory\n");
            Status::Memory
        }
    };
    ExitCode::from(status.code())
}
