//! A book beside a plain program.

use crate::answered::Answered;
use crate::call::Call;
use crate::plain::Plain;
use crate::playing::Played;
use crate::random::Random;
use crate::sizes::Sizes;
use anyhow::Result;
use force_core::Event;
use std::alloc::Global;

/// What is seen after a call.
#[derive(Clone, Copy, PartialEq)]
struct Seen {
    answered: Answered,
    last: Option<Event>,
    found: Answered,
    answer: Answered,
    outcome: Answered,
    closed: bool,
    agains: u64,
}

/// What one asks about after a call.
#[derive(Clone, Copy)]
struct Asked {
    word: &'static str,
    id: u64,
}

/// Makes a call on a book, and sees what came of it.
fn see_played(played: &mut Played, call: &Call<'_>, asked: Asked) -> Result<Seen> {
    let answered = played.answer(call)?;
    Ok(Seen {
        answered,
        last: played.last(),
        found: played.find(asked.word)?,
        answer: played.answer_of(asked.id),
        outcome: played.outcome_of(asked.id),
        closed: played.book.is_closed(),
        agains: played.book.agains(),
    })
}

/// The same of a plain program.
fn see_plain(plain: &mut Plain, call: &Call<'_>, asked: Asked) -> Result<Seen> {
    let answered = plain.answer(call)?;
    Ok(Seen {
        answered,
        last: plain.last(),
        found: plain.find(asked.word),
        answer: plain.answer_of(asked.id),
        outcome: plain.outcome_of(asked.id),
        closed: plain.is_closed(),
        agains: plain.agains(),
    })
}

/// Makes a call on both, and says how they differ.
fn step(
    alloc: Global,
    played: &mut Played,
    plain: &mut Plain,
    call: &Call<'_>,
    asked: Asked,
) -> Result<Option<String>> {
    let one = see_played(played, call, asked)?;
    let other = see_plain(plain, call, asked)?;
    if one == other {
        return Ok(None);
    }
    let book = one.answered;
    let plain = other.answered;
    let text = format!(in alloc; "the book answers {book}, the plain program {plain}")?;
    Ok(Some(text))
}

/// Makes a list of calls on both, and says how they differ first.
fn list(alloc: Global, random: &mut Random, sizes: Sizes, calls: u32) -> Result<Option<String>> {
    let mut played = Played::new(alloc, sizes)?;
    let mut plain = Plain::new(alloc, sizes);
    'calls: for number in 0..calls {
        let call = if number == calls - calls / 8 {
            Call::Close
        } else {
            random.call(number)
        };
        let asked = Asked {
            word: random.word(),
            id: random.number(number),
        };
        if let Some(text) = step(alloc, &mut played, &mut plain, &call, asked)? {
            return Ok(Some(format!(in alloc; "call {number}: {text}")?));
        }
    }
    Ok(None)
}

/// The sizes of a list of calls.
fn made_up_sizes(random: &mut Random) -> Sizes {
    Sizes {
        workers: 1 + random.below(3),
        retries: random.below(3),
        copies: 1 + random.below(4),
    }
}

/// Makes up lists of calls, makes them on a book and on a plain program, and says how the two differ first.
pub fn compare(alloc: Global, seed: u64, lists: u32, calls: u32) -> Result<Option<String>> {
    let mut random = Random::new(seed);
    'lists: for number in 0..lists {
        let sizes = made_up_sizes(&mut random);
        if let Some(text) = list(alloc, &mut random, sizes, calls)? {
            return Ok(Some(format!(in alloc; "list {number}: {text}")?));
        }
    }
    Ok(None)
}
