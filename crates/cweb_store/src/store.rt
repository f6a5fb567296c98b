// The store of a finished web.
pub(crate) mod answers;
mod parts_wanted;
pub mod token_access;

ghost use Rattle.std.specs.Prelude.{◌≡◌, ◌<◌, ◌≤◌, length, slice_get, option_map, Some, None, IfOk, IfSome, All};
ghost use Rattle.cweb_store.specs.Names as spec;
ghost use Rattle.cweb_store.specs.Parts.{all_tokens, has_defs_code};
ghost use Rattle.cweb_store.specs.Faults.{faults};
ghost use Rattle.cweb_store.specs.Calls.{replacement, stored};
ghost use Rattle.cweb_store.specs.surface.Tokens.{too_many, AreInOneList, uninterned_store_bytes, interned_store_bytes};
ghost use Rattle.cweb_store.specs.surface.Tokens.{stored_strings};
ghost use Rattle.cweb_store.specs.inner.Records.{IsNextNumber, is_name_use};
ghost use Rattle.cweb_store.specs.inner.Stored.{HoldsBytes};

use crate::occurrences::Occurrences;
use crate::parts::closed::ClosedParts;
use crate::replacements::{ReplacementTable, Replacements};
use crate::resolution::resolved_at;
use crate::store::answers::Answers;
use crate::table::NameTable;
use crate::{NameFault, NameId, NameRef, Part, Token};
use std::alloc::{AllocError, Global};
use std::marker::Model;

/// A finished web: the resolution of each occurrence, the parts of each name, and the faults.
pub struct Store {
    parts: ClosedParts,
    occurrences: Occurrences,
    replacements: ReplacementTable,
    answers: Answers,
    text_bytes: u64,
}

impl Drop for Store {
    fn drop(self) {
        let Self {
            parts: _,
            occurrences: _,
            replacements: _,
            answers: _,
            text_bytes: _,
        } = self;
    }
}

impl Model for Store {
    ghost use Rattle.cweb_store.specs.Calls.{Stored};

    ghost Value = { Stored };

    ghost use Rattle.cweb_store.specs.Calls.{stored};
    ghost use Rattle.cweb_store.specs.inner.Stored.{IsStore};

    ghost view = { λ s. stored s.occurrences s.parts s.replacements };

    ghost invariant = { λ s.
        IsStore (stored s.occurrences s.parts s.replacements) s.answers s.text_bytes };
}

impl Store {
    ghost use Rattle.cweb_store.specs.surface.Tokens.{token_model};

    pub(crate) fn new(
        alloc: Global,
        table: NameTable,
        parts: ClosedParts,
        replacements: Replacements,
    ) -> Result<Store, AllocError>
        ensures { IfOk result (λ store. store ≡ stored table parts replacements) }
    {
        let occurrences = table.close();
        let answers = Answers::of(alloc, &occurrences, &parts)?;
        let replacements = replacements.close()?;
        let Some(text_bytes) = text_bytes(&parts, &occurrences, &replacements) else {
            return Err(AllocError);
        };
        Ok(Store {
            parts,
            occurrences,
            replacements,
            answers,
            text_bytes,
        })
    }

    /// The token at an index.
    #[inline(always)]
    pub fn token(&self, number: u32) -> Token<'_>
        requires { number < length (all_tokens self.now.parts) }
        ensures { slice_get (all_tokens self.now.parts) number ≡ Some (token_model result) }
    {
        self.parts.tokens().token(number as usize)
    }

    /// The index of the first use of a name in a part or a range of it, or `part.after` if there is none.
    pub fn next_use(&self, part: Part) -> u32
        requires { part.first ≤ part.after }
        ensures { IsNextNumber is_name_use (all_tokens self.now.parts) part result }
    {
        self.parts.tokens().next_use(part)
    }

    /// The name that an occurrence resolves to: itself, or the only one with its prefix, earlier or else in the web.
    pub fn standing(&self, name: NameRef) -> Option<NameId>
        ensures name { result ≡ spec.resolved_at (spec.resolutions self.now.occurrences) name.0 }
        ensures within { IfSome result (λ id. id.0 < length (spec.names self.now.occurrences)) }
    {
        resolved_at(self.answers.resolutions.as_slice(), name.0 as usize)
    }

    /// The number of occurrences of names.
    pub fn occurrences(&self) -> u32
        ensures { result ≡ length self.now.occurrences }
    {
        self.answers.resolutions.len() as u32
    }

    /// The number of names.
    pub fn names(&self) -> u32
        ensures count { result ≡ length (spec.names self.now.occurrences) }
        ensures few { result < too_many }
    {
        self.answers.firsts.len() as u32
    }

    /// The bytes of a name.
    pub fn name_text(&self, name: NameId) -> &[u8]
        requires { name.0 < length (spec.names self.now.occurrences) }
        ensures { option_map (λ n. n.text) (slice_get (spec.names self.now.occurrences) name.0)
            ≡ Some result.now }
    {
        let first = self.answers.firsts[name.0 as usize];
        self.occurrences.text(first as usize)
    }

    /// The bytes of an occurrence. For an abbreviation, these are its prefix without the dots.
    pub fn occurrence_text(&self, name: NameRef) -> &[u8]
        requires { name.0 < length self.now.occurrences }
        ensures { option_map (λ o. o.text) (slice_get self.now.occurrences name.0)
            ≡ Some result.now }
    {
        self.occurrences.text(name.0 as usize)
    }

    /// The file names, ordered by their first occurrence as a file's.
    pub fn files(&self) -> &[NameId]
        ensures files { result.now ≡ spec.files self.now.occurrences }
        ensures within { All (λ id. id.0 < length (spec.names self.now.occurrences)) result.now }
    {
        self.answers.files.as_slice()
    }

    /// Whether a part of C text has a Defs. A `const fn` allocates nothing.
    pub const fn has_defs_code(&self) -> bool
        ensures { result ≡ has_defs_code self.now.parts }
    {
        self.answers.has_defs_code
    }

    /// The transliteration of a byte, if any.
    pub fn replacement(&self, byte: u8) -> Option<&[u8]>
        ensures { option_map (λ text. text.now) result ≡ replacement self.now.replacements byte }
    {
        self.replacements.last(byte)
    }

    /// The faults of names, in the order of their reports.
    pub fn name_faults(&self) -> &[NameFault]
        ensures faults { result.now ≡ faults self.now.occurrences self.now.parts }
        ensures within { All
            (λ fault. fault.occurrence.0 < length self.now.occurrences) result.now }
    {
        self.answers.faults.as_slice()
    }

    /// The number of bytes of all strings: of tokens, occurrences and replacements. Equal Words, Numbers and
    /// punctuators are stored once, and so are equal spellings.
    pub fn text_bytes(&self) -> u64
        ensures strings { AreInOneList result (stored_strings self.now) }
        ensures once { result ≡ interned_store_bytes self.now }
        ensures few { result ≤ uninterned_store_bytes self.now }
    {
        self.text_bytes
    }
}

// The number of bytes of all strings, if it fits 64 bits. It always does, since all are in memory.
fn text_bytes(
    parts: &ClosedParts,
    occurrences: &Occurrences,
    replacements: &ReplacementTable,
) -> Option<u64>
    ensures { IfSome result
        (λ n. HoldsBytes n (stored occurrences.now parts.now replacements.now)) }
{
    let names = occurrences.text_bytes() as u64 + replacements.text_bytes() as u64;
    names.checked_add(parts.tokens().text_bytes() as u64)
}
