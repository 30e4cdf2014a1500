//! What is asked about a forcing.

use crate::forcing::Forced;
use anyhow::{Context, Result, bail};
use std::alloc::{AllocError, Global};

/// Whether a forcing was as the evaluation alone, and in what it differs.
fn alone(alloc: Global, forced: &Forced) -> Result<String, AllocError> {
    match forced.pooled.seen.difference(&forced.alone) {
        None => String::from_str(alloc, "as alone"),
        Some(what) => format!(in alloc; "not as alone: {what}"),
    }
}

/// Whether its writes are the first ones of the evaluation alone.
fn prefix(forced: &Forced) -> &'static str {
    if forced.pooled.seen.is_prefix(&forced.alone) {
        "its writes come first alone"
    } else {
        "its writes don't come first alone"
    }
}

/// Whether the numbers are those of the history.
fn numbers(forced: &Forced) -> &'static str {
    if forced.pooled.has_its_numbers() {
        "numbers as in the history"
    } else {
        "numbers other than in the history"
    }
}

/// Whether each lease passed its gate, and each link that hung or waited went on in its time.
fn gate(forced: &Forced) -> &'static str {
    if forced.missed {
        "gate failed"
    } else {
        "gate passed"
    }
}

/// How many losses there were, up to a number.
fn losses_within(alloc: Global, forced: &Forced, most: &str) -> Result<String> {
    let most = most.parse::<u64>().ok().context("no number")?;
    let losses = forced.pooled.report.losses;
    if losses <= most {
        Ok(format!(in alloc; "losses within {most}")?)
    } else {
        Ok(format!(in alloc; "losses {losses}, more than {most}")?)
    }
}

/// A number with its word.
fn numbered(alloc: Global, word: &str, number: u64) -> Result<String> {
    Ok(format!(in alloc; "{word} {number}")?)
}

/// What a word asks about a forcing.
fn fact(alloc: Global, forced: &Forced, word: &str) -> Result<String> {
    let pooled = &forced.pooled;
    if let Some(most) = word.strip_prefix("losses<=") {
        return losses_within(alloc, forced, most);
    }
    match word {
        "writes" => numbered(alloc, word, pooled.seen.puts.len() as u64),
        "replies" => numbered(alloc, word, pooled.report.replies),
        "starts" => numbered(alloc, word, pooled.report.starts),
        "losses" => numbered(alloc, word, pooled.report.losses),
        "offered" => numbered(alloc, word, pooled.counts.offered),
        "links" => numbered(alloc, word, pooled.links as u64),
        "alone" => Ok(alone(alloc, forced)?),
        "prefix" => Ok(String::from_str(alloc, prefix(forced))?),
        "numbers" => Ok(String::from_str(alloc, numbers(forced))?),
        "gate" => Ok(String::from_str(alloc, gate(forced))?),
        _ => bail!("{word} is no fact"),
    }
}

/// What some words ask about a forcing, in one line.
pub fn facts(alloc: Global, forced: &Forced, words: &str) -> Result<String> {
    let mut text = String::new(alloc);
    'words: for word in words.split(' ') {
        if !text.is_empty() {
            text.push_str(", ")?;
        }
        text.push_str(fact(alloc, forced, word)?.as_str())?;
    }
    Ok(text)
}
