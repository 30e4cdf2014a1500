//! Lines of a transcript.

ghost use Rattle.std.specs.Prelude.{◌≤◌, IfSome};

use crate::call::Call;
use crate::sizes::Sizes;
use crate::words::MOST_WORD;
use force_core::Need;
use std::str::Split;

/// What a line says.
#[derive(Clone, Copy)]
pub enum Line<'a> {
    /// Nothing: it is empty or a note.
    Note,
    /// A new book.
    Book(Sizes),
    /// A call of the book.
    Call(Call<'a>),
    /// Offers of the jobs of numbers, from the first one to the one before the last.
    Offers { from: u32, to: u32, need: Need },
    /// The history of the book.
    History,
    /// So many lists of so many calls that are made up, made on a book and on a plain program.
    Random { seed: u64, lists: u32, calls: u32 },
    /// So many jobs, one after another.
    Work { jobs: u32 },
}

/// A number of a line.
fn number(words: &mut Split<'_, char>) -> Option<u64> {
    words.next()?.parse::<u64>().ok()
}

/// A number that is not great.
fn small(words: &mut Split<'_, char>) -> Option<u32> {
    words.next()?.parse::<u32>().ok()
}

/// A number within bounds.
fn within(words: &mut Split<'_, char>, least: u32, most: u32) -> Option<u32>
    ensures { IfSome result (λ number. (least ≤ number) × (number ≤ most)) }
{
    let number = small(words)?;
    if number < least || number > most {
        return None;
    }
    Some(number)
}

/// The word of a job.
fn word<'a>(words: &mut Split<'a, char>) -> Option<&'a str> {
    let word = words.next()?;
    if word.is_empty() || word.len() > MOST_WORD {
        return None;
    }
    Some(word)
}

fn need(words: &mut Split<'_, char>) -> Option<Need> {
    match words.next()? {
        "now" => Some(Need::Now),
        "ahead" => Some(Need::Ahead),
        _ => None,
    }
}

/// A status with which a job may fail.
fn status(words: &mut Split<'_, char>) -> Option<u8> {
    Some(within(words, 1, 204)? as u8)
}

fn book<'a>(words: &mut Split<'a, char>) -> Option<Line<'a>> {
    let workers = within(words, 1, 64)?;
    let retries = within(words, 0, 16)?;
    let copies = within(words, 1, 4)?;
    Some(Line::Book(Sizes {
        workers,
        retries,
        copies,
    }))
}

fn offers<'a>(words: &mut Split<'a, char>) -> Option<Line<'a>> {
    let from = small(words)?;
    let to = small(words)?;
    let need = need(words)?;
    Some(Line::Offers { from, to, need })
}

fn random<'a>(words: &mut Split<'a, char>) -> Option<Line<'a>> {
    let seed = number(words)?;
    let lists = small(words)?;
    let calls = small(words)?;
    Some(Line::Random { seed, lists, calls })
}

fn offer<'a>(words: &mut Split<'a, char>) -> Option<Call<'a>> {
    let word = word(words)?;
    let need = need(words)?;
    Some(Call::Offer { word, need })
}

fn reply<'a>(words: &mut Split<'a, char>) -> Option<Call<'a>> {
    let lease = number(words)?;
    let status = status(words)?;
    Some(Call::Reply { lease, status })
}

/// A call of a book.
fn call<'a>(name: &str, words: &mut Split<'a, char>) -> Option<Call<'a>> {
    match name {
        "offer" => offer(words),
        "start" => Some(Call::Start {
            worker: small(words)?,
        }),
        "reply" => reply(words),
        "lost" => Some(Call::Lose {
            lease: number(words)?,
        }),
        "close" => Some(Call::Close),
        "take" => Some(Call::Take { id: number(words)? }),
        "answer" => Some(Call::Answer { id: number(words)? }),
        "find" => Some(Call::Find { word: word(words)? }),
        "agains" => Some(Call::Agains),
        _ => None,
    }
}

/// What the words of a line say, up to the words that are left.
fn said<'a>(name: &str, words: &mut Split<'a, char>) -> Option<Line<'a>> {
    match name {
        "book" => book(words),
        "offers" => offers(words),
        "history" => Some(Line::History),
        "random" => random(words),
        "work" => Some(Line::Work {
            jobs: small(words)?,
        }),
        _ => Some(Line::Call(call(name, words)?)),
    }
}

impl<'a> Line<'a> {
    /// What a line says. None: it is wrong.
    pub fn read(text: &'a str) -> Option<Line<'a>> {
        if text.is_empty() || text.starts_with('#') {
            return Some(Line::Note);
        }
        let mut words = text.split(' ');
        let name = words.next()?;
        let line = said(name, &mut words)?;
        if words.next().is_some() {
            return None;
        }
        Some(line)
    }
}
