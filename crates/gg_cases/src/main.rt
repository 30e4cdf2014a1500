//! Runs case files: command lines over a store and files in memory, and what each of them prints, writes and leaves.
#![tactic(auto)]

mod case_text;
mod cases;
mod command;
mod differences;
mod disturbance;
mod links;
mod over_links;
mod part;
mod playing;
mod recorder;
mod report;
mod scene;
mod section_bytes;
mod sections;
mod undisturbed;
mod wrong;

use anyhow::{Context, Result};
use report::report_file;
use std::process::ExitCode;
use std::rt::{Env, Files};
use std::sync::Wait;
use std::thread::Threads;
use std::{env, fs};

/// The file that names the case files of a folder, one a line.
const INDEX: &str = "index";

/// The program's words.
fn words<R: Env + AllocGlobal>(rt: &R) -> Result<Vec<String>> {
    let mut words = Vec::new(rt.alloc());
    for word in env::args(rt)?.skip(1) {
        words.push(word)?;
    }
    Ok(words)
}

/// The lines of the index.
fn indexed<R: Files + AllocGlobal>(rt: &R) -> Result<Vec<String>> {
    let mut paths = Vec::new(rt.alloc());
    let index = fs::read_to_string(rt, INDEX).context("reading the index")?;
    for line in index.lines() {
        paths.push(String::from_str(rt.alloc(), line)?)?;
    }
    Ok(paths)
}

/// The paths of the case files: the program's words or, where there are none, the lines of the index.
fn paths<R: Files + Env + AllocGlobal>(rt: &R) -> Result<Vec<String>> {
    let words = words(rt)?;
    if words.is_empty() {
        return indexed(rt);
    }
    Ok(words)
}

/// Runs the cases of a file, prints a report of each, and says whether all are as they must be.
fn run_file<R: Files + Print + AllocGlobal + Threads + Wait + Sync>(
    rt: &R,
    path: &str,
) -> Result<bool> {
    let text = fs::read_to_string(rt, path).context(format_args!("reading {path}"))?;
    let report = report_file(rt, rt.alloc(), path, text.as_str())?;
    for line in report.lines.as_slice() {
        rt.println(line)?;
    }
    Ok(report.ok)
}

fn run<R: Files + Env + Print + AllocGlobal + Threads + Wait + Sync>(rt: &R) -> Result<bool> {
    let mut ok = true;
    let paths = paths(rt)?;
    for path in paths.as_slice() {
        ok = run_file(rt, path.as_str())? && ok;
    }
    Ok(ok)
}

fn main(rt: HostRuntime) -> Result<ExitCode> {
    if run(&rt)? {
        Ok(ExitCode::SUCCESS)
    } else {
        Ok(ExitCode::FAILURE)
    }
}
