// Transliterations of bytes in printed Words.
ghost use Rattle.std.specs.Prelude.{◌≡◌, ◌<◌, ◌^◌, ◌++◌, ◌∷◌, [], length, map, option_map, IfOk, OnOk, OnErr};
ghost use Rattle.cweb_store.specs.Calls.{replacement};
ghost use Rattle.cweb_store.specs.surface.Tokens.{replacement_of, replacement_bytes, AreInOneList, total};
ghost use Rattle.cweb_store.specs.inner.Stored.{AreLast};

use crate::strings::StringList;
use std::alloc::{AllocError, Global};
use std::marker::Model;

/// A byte and its replacement.
#[derive(Drop)]
pub struct Replaced {
    pub byte: u8,
    pub text: Vec<u8>,
}

/// Replacements in the order of the calls.
#[derive(Drop)]
pub struct Replacements {
    alloc: Global,
    entries: Vec<Replaced>,
}

impl Model for Replacements {
    ghost use Rattle.std.specs.Prelude.{List, map};
    ghost use Rattle.cweb_store.specs.Calls.{Replacement};
    ghost use Rattle.cweb_store.specs.inner.Stored.{replacement_in};

    ghost Value = { List Replacement };

    ghost view = { λ s. map replacement_in s.entries.items };
}

impl Replacements {
    /// An empty list.
    pub fn new(alloc: Global) -> Replacements
        ensures { result ≡ [] }
    {
        Replacements {
            alloc,
            entries: Vec::new(alloc),
        }
    }

    /// Appends a replacement. A refused call changes nothing.
    pub fn add(&mut self, byte: u8, text: &[u8]) -> Result<(), AllocError>
        ensures ok { OnOk result (self.new ≡ self.old ++ replacement_of byte text.now ∷ []) }
        ensures err { OnErr result (self.new ≡ self.old) }
    {
        let text = Vec::from_slice(self.alloc, text)?;
        self.entries.push(Replaced { byte, text })?;
        Ok(())
    }

    /// The finished replacements, with a table of the last one for each byte.
    pub fn close(self) -> Result<ReplacementTable, AllocError>
        ensures { IfOk result (λ table. table ≡ self) }
    {
        let mut strings = StringList::new(self.alloc);
        let mut bytes = Vec::with_capacity(self.alloc, self.entries.len())?;
        for replaced in &self.entries {
            strings.add(replaced.text.as_slice())?;
            bytes.push(replaced.byte)?;
        }
        let last_places = last_places(self.alloc, bytes.as_slice())?;
        Ok(ReplacementTable {
            strings,
            bytes,
            last_places,
        })
    }
}

/// Finished replacements. The last one of each byte is found at once.
#[derive(Drop)]
pub struct ReplacementTable {
    strings: StringList,
    bytes: Vec<u8>,
    last_places: Vec<Option<usize>>,
}

impl Model for ReplacementTable {
    ghost use Rattle.std.specs.Prelude.{List};
    ghost use Rattle.cweb_store.specs.Calls.{Replacement};
    ghost use Rattle.cweb_store.specs.inner.Stored.{replacements_at, IsReplacementTable};

    ghost Value = { List Replacement };

    ghost view = { λ s. replacements_at s.strings s.bytes.items };

    ghost invariant = { λ s. IsReplacementTable s.strings s.bytes.items s.last_places.items };
}

impl ReplacementTable {
    /// The replacement of a byte: the last one, if any.
    pub fn last(&self, byte: u8) -> Option<&[u8]>
        ensures { option_map (λ text. text.now) result ≡ replacement self.now byte }
    {
        let Some(number) = self.last_places[byte as usize] else {
            return None;
        };
        Some(self.strings.string(number))
    }

    /// The number of bytes of all replacements.
    pub fn text_bytes(&self) -> usize
        ensures strings { AreInOneList result (map replacement_bytes self.now) }
        ensures bytes { result ≡ total length (map replacement_bytes self.now) }
        ensures few { result < 2 ^ 63 }
    {
        self.strings.text_bytes()
    }
}

// For each byte, the index of its last occurrence. The table is on the heap because a store is moved several times.
fn last_places(alloc: Global, bytes: &[u8]) -> Result<Vec<Option<usize>>, AllocError>
    ensures { IfOk result (λ places. AreLast places.items bytes.now) }
{
    let mut places = Vec::from_array(alloc, [None; 256])?;
    for (i, byte) in bytes.iter().enumerate() {
        places[*byte as usize] = Some(i);
    }
    Ok(places)
}
