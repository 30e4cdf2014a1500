//! What identifiers stand for.

ghost use Rattle.std.specs.Prelude.{◌≡◌, None, Some, OnOk};
ghost use Rattle.std.specs.Option.{option_copied};
ghost use Rattle.tool_text.specs.Expand.{with_macro};
ghost use Rattle.tool_text.specs.Views.{macros_of};

use object_name::Bytes;
use std::alloc::{AllocError, Global};
use std::collections::HashMap;

/// What identifiers stand for. A look-up costs the length of the identifier.
#[derive(Drop)]
pub(crate) struct MacroTable {
    texts: HashMap<Vec<u8>, Bytes>,
}

impl MacroTable {
    pub(crate) fn new(alloc: Global) -> Self
        ensures { macros_of result ≡ (λ name. None) }
    {
        MacroTable {
            texts: HashMap::new(alloc),
        }
    }

    /// What an identifier stands for.
    pub(crate) fn get(&self, name: &[u8]) -> Option<&Bytes>
        ensures { option_copied result ≡ macros_of self.now name.now }
    {
        self.texts.get(name)
    }

    /// Lets an identifier stand for a text.
    pub(crate) fn define(
        &mut self,
        alloc: Global,
        name: &[u8],
        text: &[u8],
    ) -> Result<(), AllocError>
        ensures { OnOk result (macros_of self.new ≡ with_macro name.now (Some text.now) (macros_of self.old)) }
    {
        let key = name.to_vec(alloc)?;
        let text = Bytes::from_slice(alloc, text)?;
        self.texts.insert(key, text)?;
        Ok(())
    }

    /// Forgets an identifier.
    pub(crate) fn forget(&mut self, name: &[u8])
        ensures { macros_of self.new ≡ with_macro name.now None (macros_of self.old) }
    {
        self.texts.remove(name);
    }
}
