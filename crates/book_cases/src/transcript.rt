//! Transcripts: lines of calls, and what is answered to them.

use crate::answered::Answered;
use crate::call::Call;
use crate::comparing::compare;
use crate::line::Line;
use crate::playing::Played;
use crate::sizes::Sizes;
use crate::working::work;
use anyhow::Result;
use force_core::{Event, Need};
use std::alloc::{AllocError, Global};

/// What is printed of a line.
#[derive(Drop)]
pub enum Said {
    Nothing,
    Line(String),
    /// The line is wrong.
    Wrong,
    /// A book and a plain program differ, in this way.
    Differs(String),
}

/// A book, and what lines do to it.
#[derive(Drop)]
pub struct Transcript {
    alloc: Global,
    played: Option<Played>,
}

/// An event as it is printed.
fn spelled(alloc: Global, event: &Event) -> Result<String, AllocError> {
    match event {
        Event::Offered(id) => format!(in alloc; "offered {id}"),
        Event::Started { lease, id, worker } => {
            format!(in alloc; "started {lease} {id} {worker}")
        }
        Event::First { lease } => format!(in alloc; "first {lease}"),
        Event::Lost { lease } => format!(in alloc; "lost {lease}"),
        Event::Closed => String::from_str(alloc, "closed"),
    }
}

/// A history in one line.
fn history(alloc: Global, events: &[Event]) -> Result<String, AllocError> {
    if events.is_empty() {
        return String::from_str(alloc, "none");
    }
    let mut text = String::new(alloc);
    'events: for event in events {
        if !text.is_empty() {
            text.push_str(", ")?;
        }
        text.push_str(spelled(alloc, event)?.as_str())?;
    }
    Ok(text)
}

/// How many jobs were offered, known and refused.
#[derive(Clone, Copy, Default)]
struct Counts {
    offered: u64,
    known: u64,
    full: u64,
}

impl Counts {
    fn count(&mut self, answered: Answered) {
        match answered {
            Answered::Offered(_) => self.offered = self.offered.saturating_add(1),
            Answered::Known(_) => self.known = self.known.saturating_add(1),
            _ => self.full = self.full.saturating_add(1),
        }
    }
}

/// Offers the jobs of some numbers.
fn offers(alloc: Global, played: &mut Played, from: u32, to: u32, need: Need) -> Result<Counts> {
    let mut counts = Counts::default();
    'numbers: for number in from..to {
        let word = format!(in alloc; "{number}")?;
        let call = Call::Offer {
            word: word.as_str(),
            need,
        };
        counts.count(played.answer(&call)?);
    }
    Ok(counts)
}

impl Transcript {
    pub fn new(alloc: Global) -> Transcript {
        Transcript {
            alloc,
            played: None,
        }
    }

    /// Does what a line says.
    pub fn say(&mut self, text: &str) -> Result<Said> {
        match Line::read(text) {
            None => Ok(Said::Wrong),
            Some(Line::Note) => Ok(Said::Nothing),
            Some(Line::Book(sizes)) => self.begin(sizes),
            Some(Line::Call(call)) => self.call(&call),
            Some(Line::Offers { from, to, need }) => self.offer_all(from, to, need),
            Some(Line::History) => self.history(),
            Some(Line::Random { seed, lists, calls }) => self.random(seed, lists, calls),
            Some(Line::Work { jobs }) => self.work(jobs),
        }
    }

    /// Begins a new book.
    fn begin(&mut self, sizes: Sizes) -> Result<Said> {
        self.played = Some(Played::new(self.alloc, sizes)?);
        Ok(Said::Nothing)
    }

    fn call(&mut self, call: &Call<'_>) -> Result<Said> {
        let Some(played) = &mut self.played else {
            return Ok(Said::Wrong);
        };
        let answered = played.answer(call)?;
        Ok(Said::Line(format!(in self.alloc; "{answered}")?))
    }

    fn offer_all(&mut self, from: u32, to: u32, need: Need) -> Result<Said> {
        let Some(played) = &mut self.played else {
            return Ok(Said::Wrong);
        };
        let Counts {
            offered,
            known,
            full,
        } = offers(self.alloc, played, from, to, need)?;
        Ok(Said::Line(format!(in self.alloc; "offered {offered}, known {known}, full {full}")?))
    }

    fn history(&self) -> Result<Said> {
        let Some(played) = &self.played else {
            return Ok(Said::Wrong);
        };
        Ok(Said::Line(history(self.alloc, played.book.history())?))
    }

    fn random(&self, seed: u64, lists: u32, calls: u32) -> Result<Said> {
        match compare(self.alloc, seed, lists, calls)? {
            None => Ok(Said::Line(format!(in self.alloc; "{lists} lists of {calls} calls agree")?)),
            Some(text) => Ok(Said::Differs(text)),
        }
    }

    fn work(&self, jobs: u32) -> Result<Said> {
        work(self.alloc, jobs)?;
        Ok(Said::Line(format!(in self.alloc; "{jobs} jobs done")?))
    }
}
