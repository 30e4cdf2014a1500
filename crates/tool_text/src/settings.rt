//! What the arguments of the preprocessor set.

ghost use Rattle.std.specs.Prelude.{◌≡◌, IfOk};
ghost use Rattle.std.specs.Option.{option_map};
ghost use Rattle.tool_text.specs.Views.{settings_of};
ghost use Rattle.tool_text.specs.Cpp as words;

use crate::macros::MacroTable;
use object_name::{Bytes, Many};
use std::alloc::{AllocError, Global};
use text_lines::split_at_byte;
use thunk_codec::{Folder, is_identifier};

/// What the arguments of the preprocessor set.
#[derive(Drop)]
pub(crate) struct Settings {
    /// The include folders in order.
    pub folders: Many<Folder>,
    /// What is defined.
    pub macros: MacroTable,
}

/// The folder of a text that is one as it stands.
#[tactic(auto, unfolding(thunk_codec::specs::Folder::is_folder))]
fn folder_as_is(alloc: Global, text: &[u8]) -> Result<Option<Folder>, AllocError>
    ensures { IfOk result (λ folder. folder ≡ words.folder_as_is text.now) }
{
    let Some(folder) = Folder::read(alloc, text)? else {
        return Ok(None);
    };
    if folder.text() != text {
        return Ok(None);
    }
    Ok(Some(folder))
}

impl Settings {
    /// No folder, and nothing defined.
    fn new(alloc: Global) -> Self
        ensures { settings_of result ≡ words.no_settings }
    {
        Settings {
            folders: Many::new(alloc),
            macros: MacroTable::new(alloc),
        }
    }

    /// One more include folder, after the others.
    fn with_folder(mut self, alloc: Global, text: &[u8]) -> Result<Option<Settings>, AllocError>
        ensures { IfOk result (λ found. option_map settings_of found ≡ words.with_folder text.now (settings_of self)) }
    {
        let Some(folder) = folder_as_is(alloc, text)? else {
            return Ok(None);
        };
        self.folders.push(folder)?;
        Ok(Some(self))
    }

    /// One more definition: an identifier, `=` and its text.
    fn with_definition(mut self, alloc: Global, text: &[u8]) -> Result<Option<Settings>, AllocError>
        ensures { IfOk result (λ found. option_map settings_of found ≡ words.with_definition text.now (settings_of self)) }
    {
        let Some((name, value)) = split_at_byte(b'=', text) else {
            return Ok(None);
        };
        if !is_identifier(name) {
            return Ok(None);
        }
        self.macros.define(alloc, name, value)?;
        Ok(Some(self))
    }

    /// One identifier forgotten.
    fn without_definition(mut self, name: &[u8]) -> Option<Settings>
        ensures { option_map settings_of result ≡ words.without_definition name.now (settings_of self) }
    {
        if !is_identifier(name) {
            return None;
        }
        self.macros.forget(name);
        Some(self)
    }

    /// What one more argument sets.
    #[tactic(auto, unfolding(crate::specs::Cpp::with_argument))]
    fn with_argument(self, alloc: Global, arg: &[u8]) -> Result<Option<Settings>, AllocError>
        ensures { IfOk result (λ found. option_map settings_of found ≡ words.with_argument arg.now (settings_of self)) }
    {
        if arg.starts_with(b"-I") {
            return self.with_folder(alloc, &arg[2..]);
        }
        if arg.starts_with(b"-D") {
            return self.with_definition(alloc, &arg[2..]);
        }
        if arg.starts_with(b"-U") {
            return Ok(self.without_definition(&arg[2..]));
        }
        Ok(None)
    }

    /// What arguments set, in order. There is nothing where one isn't of its form.
    pub(crate) fn read(alloc: Global, args: &[Bytes]) -> Result<Option<Settings>, AllocError>
        ensures { IfOk result (λ found. option_map settings_of found ≡ words.with_arguments args.now words.no_settings) }
    {
        let mut settings = Settings::new(alloc);
        let mut rest = args;
        'words: while let [arg, others @ ..] = rest {
            let Some(now) = settings.with_argument(alloc, arg.as_slice())? else {
                return Ok(None);
            };
            settings = now;
            rest = others;
        }
        Ok(Some(settings))
    }
}
