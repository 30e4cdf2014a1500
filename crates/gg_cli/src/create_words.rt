//! The words of `create-thunk`.

ghost use Rattle.std.specs.Prelude.{◌≡◌, ◌-◌, ◌^◌, codes, length, map, min, sum_by, string_bytes, IfOk};
ghost use Rattle.text_lines.specs.Cuts.{split_at_byte};
ghost use Rattle.gg_cli.specs.CreateWords.{no_parts, card_name_of, with_function, with_part, with_parts, pair_bytes, is_within, fit_recipe, recipe_of, create_of};
ghost use Rattle.gg_cli.specs.Words.{IsCommand};
ghost use Rattle.gg_cli.specs.Reading.{Finds};

use crate::command::Command;
use crate::word_fault::WordFault;
use build_plan::{Recipe, RecipeFunction};
use object_name::{Bytes, Many};
use std::alloc::{AllocError, Global};
use text_lines::split_at_byte;
use thunk_codec::{Path, is_identifier, keep_rules, sort_envs, sort_paths};

/// The greatest length of a card's name: the bytes of the card are no more than an object may have.
const MAX_CARD_NAME: usize = 16_777_207;

/// The most arguments and environment pairs together.
const MAX_TEXTS: usize = 65_536;

/// The most bytes of them together.
const MAX_TEXT_BYTES: usize = 4_194_304;

/// What the options so far give: a slot for the function, and lists of what may be given again.
#[derive(Drop)]
pub(crate) struct Slots {
    function: Option<RecipeFunction>,
    args: Many<Bytes>,
    envs: Many<(Bytes, Bytes)>,
    inputs: Many<Path>,
    outputs: Many<Path>,
}

/// The name of a card, if a word is one.
fn card_name(alloc: Global, word: &[u8]) -> Result<Option<Bytes>, AllocError>
    ensures { IfOk result (λ found. found ≡ card_name_of word.now) }
{
    if !is_identifier(word) {
        return Ok(None);
    }
    if word.len() > MAX_CARD_NAME {
        return Ok(None);
    }
    Ok(Some(Bytes::from_slice(alloc, word)?))
}

/// A key and a value, if a word has a `=`.
fn env(alloc: Global, word: &[u8]) -> Result<Option<(Bytes, Bytes)>, AllocError>
    ensures { IfOk result (λ found. found ≡ split_at_byte 61 word.now) }
{
    let Some((key, value)) = split_at_byte(b'=', word) else {
        return Ok(None);
    };
    let key = Bytes::from_slice(alloc, key)?;
    let value = Bytes::from_slice(alloc, value)?;
    Ok(Some((key, value)))
}

impl Slots {
    /// Nothing is given yet.
    fn new(alloc: Global) -> Self
        ensures { result ≡ no_parts }
    {
        Slots {
            function: None,
            args: Many::new(alloc),
            envs: Many::new(alloc),
            inputs: Many::new(alloc),
            outputs: Many::new(alloc),
        }
    }

    /// With a function, where none is given yet.
    fn with_function(mut self, function: RecipeFunction) -> Result<Slots, WordFault>
        ensures { Finds result (with_function function self) }
    {
        if self.function.is_some() {
            return Err(WordFault::Usage);
        }
        self.function = Some(function);
        Ok(self)
    }

    /// With the card of a name as its function.
    fn with_card(self, alloc: Global, value: &[u8]) -> Result<Slots, WordFault>
        ensures { Finds result (with_part self (codes "--card") value.now) }
    {
        let Some(name) = card_name(alloc, value)? else {
            return Err(WordFault::Usage);
        };
        self.with_function(RecipeFunction::Card(name))
    }

    /// With a file as its function.
    fn with_file(self, alloc: Global, value: &[u8]) -> Result<Slots, WordFault>
        ensures { Finds result (with_part self (codes "--function") value.now) }
    {
        let Some(path) = Path::read(alloc, value)? else {
            return Err(WordFault::Usage);
        };
        self.with_function(RecipeFunction::File(path))
    }

    /// With an argument.
    fn with_arg(mut self, alloc: Global, value: &[u8]) -> Result<Slots, WordFault>
        ensures { Finds result (with_part self (codes "--arg") value.now) }
    {
        let arg = Bytes::from_slice(alloc, value)?;
        self.args.push(arg)?;
        Ok(self)
    }

    /// With a key and its value.
    fn with_env(mut self, alloc: Global, value: &[u8]) -> Result<Slots, WordFault>
        ensures { Finds result (with_part self (codes "--env") value.now) }
    {
        let Some(env) = env(alloc, value)? else {
            return Err(WordFault::Usage);
        };
        self.envs.push(env)?;
        Ok(self)
    }

    /// With an input.
    fn with_input(mut self, alloc: Global, value: &[u8]) -> Result<Slots, WordFault>
        ensures { Finds result (with_part self (codes "--input") value.now) }
    {
        let Some(path) = Path::read(alloc, value)? else {
            return Err(WordFault::Usage);
        };
        self.inputs.push(path)?;
        Ok(self)
    }

    /// With an output.
    fn with_output(mut self, alloc: Global, value: &[u8]) -> Result<Slots, WordFault>
        ensures { Finds result (with_part self (codes "--output") value.now) }
    {
        let Some(path) = Path::read(alloc, value)? else {
            return Err(WordFault::Usage);
        };
        self.outputs.push(path)?;
        Ok(self)
    }

    /// With what an option and its value give.
    fn with_part(self, alloc: Global, option: &[u8], value: &[u8]) -> Result<Slots, WordFault>
        ensures { Finds result (with_part self option.now value.now) }
    {
        if option == b"--card".as_slice() {
            return self.with_card(alloc, value);
        }
        if option == b"--function".as_slice() {
            return self.with_file(alloc, value);
        }
        if option == b"--arg".as_slice() {
            return self.with_arg(alloc, value);
        }
        if option == b"--env".as_slice() {
            return self.with_env(alloc, value);
        }
        if option == b"--input".as_slice() {
            return self.with_input(alloc, value);
        }
        if option == b"--output".as_slice() {
            return self.with_output(alloc, value);
        }
        Err(WordFault::Usage)
    }

    /// What all words give.
    fn read(alloc: Global, words: &[String]) -> Result<Slots, WordFault>
        ensures { Finds result (with_parts no_parts (map string_bytes words.now)) }
    {
        let mut given = Slots::new(alloc);
        let mut rest = words;
        'options: while let [option, value, others @ ..] = rest {
            let more = given.with_part(alloc, option.as_bytes(), value.as_bytes())?;
            given = more;
            rest = others;
        }
        if !rest.is_empty() {
            return Err(WordFault::Usage);
        }
        Ok(given)
    }

    /// The command that stores the thunk of what is given. Environment and inputs are put in order.
    fn into_command(self) -> Result<Command, WordFault>
        ensures { Finds result (recipe_of self) }
    {
        let Slots {
            function,
            args,
            envs,
            inputs,
            outputs,
        } = self;
        let Some(function) = function else {
            return Err(WordFault::Usage);
        };
        let envs = sort_envs(envs)?;
        let inputs = sort_paths(inputs)?;
        fit(Recipe {
            function,
            args,
            envs,
            inputs,
            outputs,
        })
    }
}

/// The bytes of some arguments, or the greatest number.
fn args_len(args: &[Bytes]) -> usize
    ensures { result ≡ min (sum_by length args.now) (2 ^ 64 - 1) }
{
    let mut total = 0usize;
    'texts: for arg in args {
        total = total.saturating_add(arg.len());
    }
    total
}

/// The bytes of some keys and values as `KEY=VALUE`, or the greatest number.
fn envs_len(envs: &[(Bytes, Bytes)]) -> usize
    ensures { result ≡ min (sum_by pair_bytes envs.now) (2 ^ 64 - 1) }
{
    let mut total = 0usize;
    'pairs: for (key, value) in envs {
        let pair = key.len().saturating_add(1).saturating_add(value.len());
        total = total.saturating_add(pair);
    }
    total
}

/// Whether there are not too many arguments and pairs, nor too many bytes of them.
#[tactic(auto, unfolding(crate::specs::CreateWords::is_within))]
fn is_within(args: &[Bytes], envs: &[(Bytes, Bytes)]) -> bool
    ensures { result ≡ is_within args.now envs.now }
{
    if args.len().saturating_add(envs.len()) > MAX_TEXTS {
        return false;
    }
    args_len(args).saturating_add(envs_len(envs)) <= MAX_TEXT_BYTES
}

/// The command that stores the thunk of a recipe, where its parts are those of a thunk.
fn fit(recipe: Recipe) -> Result<Command, WordFault>
    ensures { Finds result (fit_recipe recipe) }
{
    let args = recipe.args.as_slice();
    let envs = recipe.envs.as_slice();
    if !is_within(args, envs) {
        return Err(WordFault::Usage);
    }
    if !keep_rules(
        args,
        envs,
        recipe.inputs.as_slice(),
        recipe.outputs.as_slice(),
    ) {
        return Err(WordFault::Usage);
    }
    Ok(Command::CreateThunk(recipe))
}

/// The command by what follows `create-thunk`.
pub(crate) fn read_create(alloc: Global, words: &[String]) -> Result<Command, WordFault>
    ensures exact { Finds result (create_of (map string_bytes words.now)) }
    ensures rules { IfOk result (λ command. IsCommand command) }
{
    let given = Slots::read(alloc, words)?;
    given.into_command()
}
