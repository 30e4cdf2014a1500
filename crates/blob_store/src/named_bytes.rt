//! Bytes by name, in memory.

ghost use Rattle.std.specs.Prelude.{◌≡◌, IfOk, OnOk, OnErr, length, position};
ghost use Rattle.std.specs.FinMap as map;
ghost use Rattle.std.specs.Ordering.{eq_by_cmp};
ghost use Rattle.object_name.specs.Name.{name_cmp};
ghost use Rattle.object_name.specs.Maps.{map_of};

use object_name::{Bytes, Many, Name};
use std::alloc::{AllocError, Global};
use std::marker::Model;

/// Bytes by name. Contracts see them as a finite map. A look-up walks over the names.
#[derive(Drop)]
pub struct NamedBytes {
    pairs: Vec<(Name, Bytes)>,
}

impl Model for NamedBytes {
    ghost use Rattle.std.specs.FinMap as map;
    ghost use Rattle.std.specs.Prelude.{◌≡◌, length};
    ghost use Rattle.object_name.specs.Name.{name_cmp};
    ghost use Rattle.blob_store.specs.Memory.{ByName, by_name_code};

    ghost Value = { ByName };

    ghost coded = { by_name_code };

    ghost view = { λ kept. map.from_entries kept.pairs.items };

    ghost invariant = { λ kept. length kept.pairs.items ≡ map.len (map.from_entries {R = name_cmp} kept.pairs.items) };
}

impl NamedBytes {
    pub fn new(alloc: Global) -> Self
        ensures { result ≡ map.empty }
    {
        NamedBytes {
            pairs: Vec::new(alloc),
        }
    }

    /// The map of some pairs. A later one replaces an earlier one of the same name.
    pub fn from_pairs(alloc: Global, pairs: Many<(Name, Bytes)>) -> Result<Self, AllocError>
        ensures { IfOk result (λ kept. kept ≡ map_of pairs) }
    {
        let mut kept = NamedBytes::new(alloc);
        'pairs: for (name, bytes) in pairs.0 {
            kept.put(name, bytes)?;
        }
        Ok(kept)
    }

    /// A copy of the bytes under a name.
    pub fn get(&self, alloc: Global, name: &Name) -> Result<Option<Bytes>, AllocError>
        ensures { IfOk result (λ found. found ≡ map.get self.now name.now) }
    {
        match index_of(self.pairs.as_slice(), name) {
            Some(i) => Ok(Some(Bytes::from_slice(alloc, self.pairs[i].1.as_slice())?)),
            None => Ok(None),
        }
    }

    /// Puts bytes under a name, in place of what was there.
    pub fn put(&mut self, name: Name, bytes: Bytes) -> Result<(), AllocError>
        ensures ok { OnOk result (self.new ≡ map.insert self.old name bytes) }
        ensures err { OnErr result (self.new ≡ self.old) }
    {
        match index_of(self.pairs.as_slice(), &name) {
            Some(i) => self.pairs[i] = (name, bytes),
            None => self.pairs.push((name, bytes))?,
        }
        Ok(())
    }

    /// The names, each once, with their bytes.
    pub fn into_pairs(self) -> Many<(Name, Bytes)>
        ensures map { map.from_entries result ≡ self }
        ensures once { length result ≡ map.len self }
    {
        Many(self.pairs)
    }
}

/// The index of the name's pair among some pairs.
fn index_of(pairs: &[(Name, Bytes)], name: &Name) -> Option<usize>
    ensures { result ≡ position (λ pair. eq_by_cmp name_cmp name.now pair.0) pairs.now }
{
    pairs.iter().position(|pair| name.cmp(&pair.0).is_eq())
}
