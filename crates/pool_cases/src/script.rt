//! Cases, line by line.

use crate::actions::read_all as read_actions;
use crate::facts::facts;
use crate::forcing::{Forced, force};
use crate::links::Links;
use crate::pairs::compare;
use crate::scene::Scene;
use crate::wanted::read_all as read_wanted;
use anyhow::{Context, Result, bail};
use object_name::TryCopy;
use std::alloc::Global;
use std::sync::Wait;
use std::thread::Threads;

/// A case, and the last forcing in it.
#[derive(Drop)]
pub struct Script {
    scene: Scene,
    last: Option<Forced>,
}

/// A number that is not great.
fn small(word: &str) -> Result<u32> {
    word.parse::<u32>().ok().context("no number")
}

impl Script {
    pub fn new(alloc: Global) -> Script {
        Script {
            scene: Scene::new(alloc),
            last: None,
        }
    }

    /// Does what a line says, and gives what is printed of it.
    pub fn say<R: Threads + Wait + Sync>(&mut self, rt: &R, text: &str) -> Result<Option<String>> {
        if text.is_empty() || text.starts_with('#') {
            return Ok(None);
        }
        let (word, rest) = text.split_once(' ').unwrap_or((text, ""));
        match word {
            "case" => self.begin(rest),
            "say" => self.title(rest),
            "force" => self.force(rt, rest),
            "pairs" => self.pairs(rt, rest),
            "show" => self.show(rest),
            _ => {
                self.prepare(word, rest)?;
                Ok(None)
            }
        }
    }

    /// Begins a case.
    fn begin(&mut self, title: &str) -> Result<Option<String>> {
        let alloc = self.scene.alloc;
        self.scene = Scene::new(alloc);
        self.last = None;
        self.title(title)
    }

    /// A title over what follows.
    fn title(&self, title: &str) -> Result<Option<String>> {
        Ok(Some(format!(in self.scene.alloc; "{title}:")?))
    }

    /// Forces over the links, and says how it ended.
    fn force<R: Threads + Wait + Sync>(&mut self, rt: &R, words: &str) -> Result<Option<String>> {
        let alloc = self.scene.alloc;
        let wanted = read_wanted(alloc, &self.scene.glossary, words)?;
        let forced = force(rt, &self.scene, wanted.as_slice())?;
        let end = String::from_str(alloc, forced.pooled.seen.end.as_str())?;
        self.last = Some(forced);
        Ok(Some(end))
    }

    /// Forces over two links with all pairs of lists of actions.
    fn pairs<R: Threads + Wait + Sync>(&mut self, rt: &R, rest: &str) -> Result<Option<String>> {
        let (length, words) = rest.split_once(' ').context("nothing is wanted")?;
        let wanted = read_wanted(self.scene.alloc, &self.scene.glossary, words)?;
        let text = compare(rt, &self.scene, small(length)?, wanted.as_slice())?;
        Ok(Some(text))
    }

    /// Says what is asked about the last forcing.
    fn show(&self, words: &str) -> Result<Option<String>> {
        let forced = self.last.as_ref().context("nothing was forced")?;
        Ok(Some(facts(self.scene.alloc, forced, words)?))
    }

    /// Adds what a line says to the case.
    fn prepare(&mut self, word: &str, rest: &str) -> Result<()> {
        match word {
            "value" | "card" | "thunk" => self.scene.hold(word, rest),
            "absent" => {
                let (kind, rest) = rest.split_once(' ').context("no object")?;
                self.scene.name(kind, rest)
            }
            "under" => self.scene.mislay(rest),
            "note" => self.scene.note(rest),
            "failing" => self.scene.fail(rest),
            "links" => self.links(rest),
            "link" => self.link(rest),
            _ => self.limit(word, rest),
        }
    }

    /// A limit of the forcings.
    fn limit(&mut self, word: &str, rest: &str) -> Result<()> {
        let number = small(rest)?;
        let limits = &mut self.scene.limits;
        match word {
            "budget" => limits.set_budget(number),
            "retries" => limits.set_retries(number)?,
            "copies" => limits.set_copies(number)?,
            _ => bail!("{word} begins no line"),
        }
        Ok(())
    }

    /// All links of a case.
    fn links(&mut self, rest: &str) -> Result<()> {
        let (word, rest) = rest.split_once(' ').unwrap_or((rest, ""));
        self.scene.links = match word {
            "inside" => Links::Inside(small(rest)?),
            "gated" => Links::Gates,
            "hanging" => Links::Hanging(small(rest)?),
            "lying" => {
                let (word, lie) = rest.split_once(' ').context("a word and a lie")?;
                let glossary = &self.scene.glossary;
                Links::Liar {
                    word: glossary.find(word)?.bytes.copy(self.scene.alloc)?,
                    lie: glossary.find(lie)?.bytes.copy(self.scene.alloc)?,
                }
            }
            _ => bail!("{word} is no kind of link"),
        };
        Ok(())
    }

    /// One more link, which acts by a list.
    fn link(&mut self, rest: &str) -> Result<()> {
        let alloc = self.scene.alloc;
        let actions = read_actions(alloc, rest)?;
        if let Links::Scripts(lists) = &mut self.scene.links {
            lists.push(actions)?;
            return Ok(());
        }
        let mut lists = Vec::new(alloc);
        lists.push(actions)?;
        self.scene.links = Links::Scripts(lists);
        Ok(())
    }
}
