//! One command line over a scene.

ghost use Rattle.std.specs.Prelude.{◌≤◌, length};

use crate::links::{LinkScripts, inside_links};
use crate::part::{Counts, Failing};
use crate::recorder::{Recorder, Write};
use crate::scene::Scene;
use crate::wrong::Wrong;
use blob_store::MemKeeper;
use file_tree::MemTree;
use gg_cli::{Command, LinkChoice, force_top, gg_top, read_words};
use object_name::{Bytes, Many, MemSink, MemSource, Name};
use std::alloc::{AllocError, Global};
use std::sync::Wait;
use std::thread::Threads;
use thunk_codec::Path;
use worker_link::Link;

/// The most links of a command.
const MAX_LINKS: usize = 64;

/// A command line: its words, what it can read, and its links, where a case lists some.
#[derive(Drop)]
pub struct Task {
    pub words: Vec<String>,
    pub input: Bytes,
    pub links: LinkScripts,
}

/// What a command line printed, wrote and left.
#[derive(Drop)]
pub struct Ran {
    pub status: u8,
    pub out: Bytes,
    pub err: Bytes,
    pub writes: Vec<Write>,
    pub calls: Counts,
    pub left: Scene,
}

/// What a command line works over.
#[derive(Drop)]
struct Edge {
    keeper: Recorder,
    tree: MemTree,
    input: MemSource,
    out: MemSink,
    err: MemSink,
}

/// A keeper of some objects and notes that records its writes.
fn keeper_of(
    alloc: Global,
    objects: Many<(Name, Bytes)>,
    notes: Many<(Name, Bytes)>,
    failing: Many<u64>,
) -> Result<Recorder, AllocError> {
    let keeper = MemKeeper::new(alloc, objects, notes, failing)?;
    Ok(Recorder::new(alloc, keeper))
}

/// A tree of some files.
fn tree_of(
    alloc: Global,
    files: Many<(Path, Bytes)>,
    failing: Many<u64>,
) -> Result<MemTree, AllocError> {
    MemTree::new(alloc, files, failing)
}

/// A source of some bytes.
fn source_of(alloc: Global, bytes: &[u8], failing: Many<u64>) -> Result<MemSource, AllocError> {
    MemSource::new(Bytes::from_slice(alloc, bytes)?, failing)
}

/// A sink that has taken nothing.
fn sink_of(alloc: Global, failing: Many<u64>) -> Result<MemSink, AllocError> {
    MemSink::new(alloc, failing)
}

impl Edge {
    fn new(
        alloc: Global,
        scene: Scene,
        input: &[u8],
        failing: Failing,
    ) -> Result<Self, AllocError> {
        let keeper = keeper_of(alloc, scene.objects, scene.notes, failing.store)?;
        let tree = tree_of(alloc, scene.files, failing.files)?;
        let input = source_of(alloc, input, failing.input)?;
        let out = sink_of(alloc, failing.output)?;
        let err = sink_of(alloc, Many::new(alloc))?;
        Ok(Edge {
            keeper,
            tree,
            input,
            out,
            err,
        })
    }

    /// Runs a command line without links, and gives its exit status.
    fn status_here(&mut self, alloc: Global, words: &[String]) -> u8 {
        let status = gg_top(
            alloc,
            words,
            &mut self.keeper,
            &mut self.tree,
            &mut self.input,
            &mut self.out,
            &mut self.err,
        );
        status.code()
    }

    /// Runs a command line over links, and gives its exit status. None where there are too few or too many.
    fn status_over<R: Threads + Wait + Sync, L: Link + Drop + Send>(
        &mut self,
        rt: &R,
        alloc: Global,
        words: &[String],
        links: Many<L>,
    ) -> Option<u8> {
        let count = links.len();
        if count == 0 || count > MAX_LINKS {
            return None;
        }
        let end = force_top(
            rt,
            alloc,
            words,
            &mut self.keeper,
            &mut self.tree,
            links,
            &mut self.out,
            &mut self.err,
        );
        Some(end.status.code())
    }

    /// Runs a command line over the links of the case, or those inside the process that its words ask for, or without links.
    fn status_of<R: Threads + Wait + Sync>(
        &mut self,
        rt: &R,
        alloc: Global,
        task: &Task,
    ) -> Result<Option<u8>, AllocError> {
        let words = task.words.as_slice();
        if !task.links.is_empty() {
            let links = task.links.links(alloc)?;
            return Ok(self.status_over(rt, alloc, words, links));
        }
        if let Ok(
            Command::ForceWith {
                links: LinkChoice::Jobs(count),
                ..
            },
        ) = read_words(alloc, words)
        {
            let links = inside_links(alloc, count)?;
            return Ok(self.status_over(rt, alloc, words, links));
        }
        Ok(Some(self.status_here(alloc, words)))
    }

    fn calls(&self) -> Counts {
        Counts {
            store: self.keeper.calls(),
            files: self.tree.calls(),
            input: self.input.calls(),
            output: self.out.calls(),
        }
    }

    fn into_ran(self, status: u8) -> Result<Ran, AllocError> {
        let calls = self.calls();
        let Edge {
            keeper,
            tree,
            out,
            err,
            ..
        } = self;
        let files = tree.into_content()?;
        let (objects, notes, writes) = keeper.into_recorded();
        Ok(Ran {
            status,
            out: out.into_content(),
            err: err.into_content(),
            writes,
            calls,
            left: Scene {
                objects,
                notes,
                files,
            },
        })
    }
}

/// Runs a command line, which stands at a line of this number.
pub fn run<R: Threads + Wait + Sync>(
    rt: &R,
    alloc: Global,
    number: usize,
    task: &Task,
    scene: Scene,
    failing: Failing,
) -> Result<Ran, Wrong> {
    let mut edge = Edge::new(alloc, scene, task.input.as_slice(), failing)?;
    match edge.status_of(rt, alloc, task)? {
        Some(status) => Ok(edge.into_ran(status)?),
        None => Err(Wrong::Form {
            number,
            why: "not 1 to 64 links",
        }),
    }
}

/// A printed line behind a mark.
fn shown(alloc: Global, mark: char, line: &[u8]) -> Result<String, AllocError> {
    let mut shown = String::new(alloc);
    shown.push(mark)?;
    shown.push(' ')?;
    push_bytes(&mut shown, line)?;
    Ok(shown)
}

/// Adds a line for each line of some printed bytes, behind a mark.
fn add_lines(
    alloc: Global,
    lines: &mut Vec<String>,
    mark: char,
    text: &[u8],
) -> Result<(), AllocError> {
    for line in text.split_inclusive(|byte| *byte == b'\n') {
        lines.push(shown(alloc, mark, line)?)?;
    }
    Ok(())
}

/// Appends a line without its line feed; `\` at its end says that there is none.
fn push_bytes(shown: &mut String, line: &[u8]) -> Result<(), AllocError> {
    let text = line.strip_suffix(b"\n");
    for byte in text.unwrap_or(line) {
        shown.push(char::from(*byte))?;
    }
    if text.is_none() {
        shown.push('\\')?;
    }
    Ok(())
}

impl Ran {
    /// What it printed and how it ended, as a case says it.
    pub fn transcript(&self, alloc: Global) -> Result<Vec<String>, AllocError> {
        let mut lines = Vec::new(alloc);
        add_lines(alloc, &mut lines, '>', self.out.as_slice())?;
        self.add_faults(alloc, &mut lines)?;
        Ok(lines)
    }

    /// What it said on standard error, and how it ended.
    pub fn faults(&self, alloc: Global) -> Result<Vec<String>, AllocError> {
        let mut lines = Vec::new(alloc);
        self.add_faults(alloc, &mut lines)?;
        Ok(lines)
    }

    fn add_faults(&self, alloc: Global, lines: &mut Vec<String>) -> Result<(), AllocError> {
        add_lines(alloc, lines, '!', self.err.as_slice())?;
        if self.status != 0 {
            let status = self.status;
            lines.push(format!(in alloc; "= {status}")?)?;
        }
        Ok(())
    }
}
