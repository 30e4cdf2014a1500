//! What the words say, one after another.

ghost use Rattle.std.specs.Prelude.{◌≡◌, Some, Ok};
ghost use Rattle.model_gcc.specs.Slots.{no_words, refusal, stages_to, with_operand, with_value, with_option, with_output, with_stop, with_passed_word, with_file, with_class, with_word, with_words};
ghost use Rattle.file_tree.specs.Planning.{Finds};

use crate::gcc_plan::{Operand, Stop};
use crate::values::{
    after_option, definition, joined, library_name, macro_name, operand_at, passed_word,
};
use crate::word_class::{Key, WordClass, class_of};
use file_tree::{PlanFault, Reason, place_after};
use object_name::{Bytes, Many};
use std::alloc::Global;
use thunk_codec::{Folder, Path};

/// What the words so far say: a slot for each option.
#[derive(Drop)]
pub(crate) struct Slots {
    /// The place of the last word.
    pub(crate) at: u32,
    /// The option whose value is the next word.
    pub(crate) waiting: Option<Key>,
    pub(crate) stop: Option<Stop>,
    /// The place of `-o`.
    pub(crate) output_at: Option<u32>,
    pub(crate) output: Option<Path>,
    pub(crate) cpp_words: Many<Bytes>,
    pub(crate) cc_words: Many<Bytes>,
    pub(crate) include_folders: Many<Folder>,
    pub(crate) lib_folders: Many<Folder>,
    pub(crate) operands: Many<Operand>,
    /// The place of each operand.
    pub(crate) places: Many<u32>,
}

/// The number of stages up to a stop.
pub(crate) fn stages_to(stop: Stop) -> u32
    ensures { result ≡ stages_to stop }
{
    match stop {
        Stop::Preprocess => 1,
        Stop::Compile => 2,
        Stop::Assemble => 3,
        Stop::Link => 4,
    }
}

impl Slots {
    /// The command's own word alone.
    fn new(alloc: Global) -> Self
        ensures { result ≡ no_words }
    {
        Slots {
            at: 0,
            waiting: None,
            stop: None,
            output_at: None,
            output: None,
            cpp_words: Many::new(alloc),
            cc_words: Many::new(alloc),
            include_folders: Many::new(alloc),
            lib_folders: Many::new(alloc),
            operands: Many::new(alloc),
            places: Many::new(alloc),
        }
    }

    /// The last word is refused.
    pub(crate) fn refused(&self, reason: Reason) -> PlanFault
        ensures { result ≡ refusal self.now reason }
    {
        PlanFault::Refused {
            at: self.at,
            reason,
        }
    }

    /// With an operand, which the last word is or holds.
    fn with_operand(mut self, operand: Operand) -> Result<Slots, PlanFault>
        ensures { Finds result (Ok (with_operand operand self)) }
    {
        let place = self.at;
        self.operands.push(operand)?;
        self.places.push(place)?;
        Ok(self)
    }

    /// With the file for what is made.
    fn with_output_path(mut self, alloc: Global, value: &[u8]) -> Result<Slots, PlanFault>
        ensures { Finds result (with_value Key.Output value.now self) }
    {
        let Some(path) = Path::read(alloc, value)? else {
            return Err(self.refused(Reason::BadValue));
        };
        self.output = Some(path);
        Ok(self)
    }

    /// With a folder where headers are looked for.
    fn with_include_folder(mut self, alloc: Global, value: &[u8]) -> Result<Slots, PlanFault>
        ensures { Finds result (with_value Key.IncludeFolder value.now self) }
    {
        let Some(folder) = Folder::read(alloc, value)? else {
            return Err(self.refused(Reason::BadValue));
        };
        let word = joined(alloc, b"-I", folder.text())?;
        self.cpp_words.push(word)?;
        self.include_folders.push(folder)?;
        Ok(self)
    }

    /// With the definition of a macro.
    fn with_definition(mut self, alloc: Global, value: &[u8]) -> Result<Slots, PlanFault>
        ensures { Finds result (with_value Key.Define value.now self) }
    {
        let Some(definition) = definition(alloc, value)? else {
            return Err(self.refused(Reason::BadValue));
        };
        let word = joined(alloc, b"-D", definition.as_slice())?;
        self.cpp_words.push(word)?;
        Ok(self)
    }

    /// With a macro that is forgotten.
    fn without_macro(mut self, alloc: Global, value: &[u8]) -> Result<Slots, PlanFault>
        ensures { Finds result (with_value Key.Undefine value.now self) }
    {
        let Some(name) = macro_name(alloc, value)? else {
            return Err(self.refused(Reason::BadValue));
        };
        let word = joined(alloc, b"-U", name.as_slice())?;
        self.cpp_words.push(word)?;
        Ok(self)
    }

    /// With a folder where libraries are looked for.
    fn with_library_folder(mut self, alloc: Global, value: &[u8]) -> Result<Slots, PlanFault>
        ensures { Finds result (with_value Key.LibraryFolder value.now self) }
    {
        let Some(folder) = Folder::read(alloc, value)? else {
            return Err(self.refused(Reason::BadValue));
        };
        self.lib_folders.push(folder)?;
        Ok(self)
    }

    /// With a library.
    fn with_library(self, alloc: Global, value: &[u8]) -> Result<Slots, PlanFault>
        ensures { Finds result (with_value Key.LibraryName value.now self) }
    {
        let Some(name) = library_name(alloc, value)? else {
            return Err(self.refused(Reason::BadValue));
        };
        self.with_operand(Operand::Library(name))
    }

    /// With an option and its value.
    fn with_value(self, alloc: Global, key: Key, value: &[u8]) -> Result<Slots, PlanFault>
        ensures { Finds result (with_value key value.now self) }
    {
        match key {
            Key::Output => self.with_output_path(alloc, value),
            Key::IncludeFolder => self.with_include_folder(alloc, value),
            Key::Define => self.with_definition(alloc, value),
            Key::Undefine => self.without_macro(alloc, value),
            Key::LibraryFolder => self.with_library_folder(alloc, value),
            Key::LibraryName => self.with_library(alloc, value),
        }
    }

    /// With an option whose value is joined to it, or else is the next word.
    fn with_option(mut self, alloc: Global, key: Key, value: &[u8]) -> Result<Slots, PlanFault>
        ensures { Finds result (with_option key value.now self) }
    {
        if value.is_empty() {
            self.waiting = Some(key);
            return Ok(self);
        }
        self.with_value(alloc, key, value)
    }

    /// With a `-o`.
    fn with_output(mut self, alloc: Global, value: &[u8]) -> Result<Slots, PlanFault>
        ensures { Finds result (with_output self.output_at value.now self) }
    {
        match self.output_at {
            Some(_) => Err(self.refused(Reason::Unknown)),
            None => {
                self.output_at = Some(self.at);
                self.with_option(alloc, Key::Output, value)
            }
        }
    }

    /// With a stop after an earlier one, which it has to be.
    fn with_second_stop(self, earlier: Stop, stop: Stop) -> Result<Slots, PlanFault>
        ensures { Finds result (with_stop (Some earlier) stop self) }
    {
        if stages_to(earlier) != stages_to(stop) {
            return Err(self.refused(Reason::TwoStages));
        }
        Ok(self)
    }

    /// With a stop.
    fn with_stop(mut self, stop: Stop) -> Result<Slots, PlanFault>
        ensures { Finds result (with_stop self.stop stop self) }
    {
        match self.stop {
            None => {
                self.stop = Some(stop);
                Ok(self)
            }
            Some(earlier) => self.with_second_stop(earlier, stop),
        }
    }

    /// With a word for the compiler.
    fn with_passed_word(mut self, alloc: Global, word: &[u8]) -> Result<Slots, PlanFault>
        ensures { Finds result (with_passed_word word.now self) }
    {
        let Some(passed) = passed_word(alloc, word)? else {
            return Err(self.refused(Reason::BadValue));
        };
        self.cc_words.push(passed)?;
        Ok(self)
    }

    /// With a file.
    fn with_file(self, alloc: Global, word: &[u8]) -> Result<Slots, PlanFault>
        ensures { Finds result (with_file word.now self) }
    {
        let Some(path) = Path::read(alloc, word)? else {
            return Err(self.refused(Reason::BadValue));
        };
        self.with_operand(operand_at(path))
    }

    /// With a word of a class.
    fn with_class(self, alloc: Global, class: WordClass, word: &[u8]) -> Result<Slots, PlanFault>
        ensures { Finds result (with_class class word.now self) }
    {
        match class {
            WordClass::StopAt(stop) => self.with_stop(stop),
            WordClass::OutputOption => self.with_output(alloc, after_option(word)),
            WordClass::ValueOption(key) => self.with_option(alloc, key, after_option(word)),
            WordClass::PassedOn => self.with_passed_word(alloc, word),
            WordClass::Unmodelled => Err(self.refused(Reason::Unknown)),
            WordClass::File => self.with_file(alloc, word),
        }
    }

    /// With one word more.
    #[tactic(auto, unfolding(crate::specs::Slots::with_word))]
    fn with_word(mut self, alloc: Global, word: &[u8]) -> Result<Slots, PlanFault>
        ensures { Finds result (with_word word.now self) }
    {
        self.at = place_after(self.at);
        match self.waiting {
            Some(key) => {
                self.waiting = None;
                self.with_value(alloc, key, word)
            }
            None => self.with_class(alloc, class_of(word), word),
        }
    }

    /// What all words after the command's own say.
    pub(crate) fn read(alloc: Global, words: &[Bytes]) -> Result<Slots, PlanFault>
        ensures { Finds result (with_words words.now no_words) }
    {
        let mut given = Slots::new(alloc);
        let mut rest = words;
        'words: while let [word, others @ ..] = rest {
            let more = given.with_word(alloc, word.as_slice())?;
            given = more;
            rest = others;
        }
        Ok(given)
    }
}
