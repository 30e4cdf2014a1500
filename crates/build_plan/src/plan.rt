//! Plans: what a command does, by its words alone and whatever its files hold.

use object_name::{Bytes, Many};
use thunk_codec::{Folder, Path};

/// Where an input of a stage comes from.
#[derive(Debug, Drop)]
pub enum Source {
    /// The file at a path, as it is before the command.
    File(Path),
    /// What the step of this number gathered; steps are counted from 0.
    Made(u32),
}

/// The run of a tool.
#[derive(Debug, Drop)]
pub struct Stage {
    /// The tool's name, as its card has it.
    pub tool: Bytes,
    pub args: Many<Bytes>,
    /// The inputs, by their paths in the job.
    pub inputs: Many<(Path, Source)>,
    /// One input more, behind the others, if there is a file for it: its path in the job, and that of the file.
    pub optional: Option<(Path, Path)>,
    /// The path that a refusal of the tool's output names.
    pub target: Path,
}

/// The run of a tool over the files that a source may include, found by scanning it first.
#[derive(Debug, Drop)]
pub struct Scanning {
    /// The tool's name, as its card has it.
    pub tool: Bytes,
    pub args: Many<Bytes>,
    /// Where headers are looked for, in order.
    pub folders: Many<Folder>,
    pub source: Path,
    /// The path that a refusal of the tool's output names.
    pub target: Path,
}

/// A step of a plan. Each gathers one item.
#[derive(Debug, Drop)]
pub enum Step {
    /// The file at a path, as an input of a tool.
    Read(Path),
    /// The bytes of the file at a path, as they are, those of a placeholder too.
    Take(Path),
    /// The file at the first of some paths that is there. Where none is, the path `missing` is refused as one without a file.
    Find { missing: Path, places: Many<Path> },
    /// What a tool gives.
    Run(Stage),
    /// What a tool gives over the scanned files of a source.
    Scan(Scanning),
}

/// A change of a file.
#[derive(Debug, Drop)]
pub enum Target {
    /// The file gets what the step of this number gathered; steps are counted from 0.
    Keep { path: Path, step: u32 },
    /// The file is removed, if there is one.
    Drop(Path),
}

/// What a command does: its steps gather items, one after another, and only then files are changed.
#[derive(Debug, Drop)]
pub struct Plan {
    pub steps: Many<Step>,
    pub targets: Many<Target>,
}
