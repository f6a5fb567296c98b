// The tokens of a store: their bytes, their uses of names, and their size.
ghost use Rattle.std.specs.Prelude.{◌≡◌, ◌<◌, ◌≤◌, ◌^◌, Some, length, slice_get, slice_range, flat_map};
ghost use Rattle.std.specs.List.{list_any};
ghost use Rattle.cweb_store.specs.Parts.{is_defs};
ghost use Rattle.cweb_store.specs.Faults.{is_use};
ghost use Rattle.cweb_store.specs.inner.Stored.{AreWithin, FlagsToo};
ghost use Rattle.cweb_store.specs.surface.Tokens.{token_model, AreInOneList, interned_token_bytes, token_strings};
ghost use Rattle.cweb_store.specs.inner.Records.{IsNextNumber, is_name_use};

use crate::resolution::resolved_at;
use crate::strings::StringList;
use crate::tokens::records::{Record, token_at};
use crate::tokens::token_index::{TokenIndex, next_in_range, numbers_from};
use crate::{NameId, NameKind, Part, Token, TokenReader};
use cweb_files::Place;
use std::marker::Model;

/// Finished tokens: records, their strings, the places of the Marks, and an index of uses and Defs. What interns words is
/// freed.
pub struct ClosedTokens {
    pub(crate) strings: StringList,
    pub(crate) records: Vec<Record>,
    pub(crate) places: Vec<Place>,
    pub(crate) token_index: TokenIndex,
}

impl Drop for ClosedTokens {
    fn drop(self) {
        let Self {
            strings: _,
            records: _,
            places: _,
            token_index: _,
        } = self;
    }
}

impl Model for ClosedTokens {
    ghost use Rattle.std.specs.Prelude.{List};
    ghost use Rattle.cweb_store.specs.Parts as spec;

    ghost Value = { List spec.Token };

    ghost use Rattle.cweb_store.specs.inner.Records.{tokens_of, AreClosedTokens};

    ghost view = { λ s. tokens_of s.strings s.places.items s.records.items };

    ghost invariant = { λ s.
        AreClosedTokens s.strings s.places.items s.records.items s.token_index };
}

impl ClosedTokens {
    ghost use Rattle.std.specs.Prelude.{map};
    ghost use Rattle.cweb_store.specs.inner.DirectBytes.{direct_bytes};

    /// The number of tokens.
    pub fn len(&self) -> usize
        ensures { result ≡ length self.now }
    {
        self.records.len()
    }

    /// The token at an index.
    #[inline(always)]
    pub fn token(&self, number: usize) -> Token<'_>
        requires { number < length self.now }
        ensures { slice_get self.now number ≡ Some (token_model result) }
    {
        token_at(
            &self.strings,
            self.places.as_slice(),
            self.records.as_slice(),
            number,
        )
    }

    /// A reader of the tokens' bytes.
    #[inline(always)]
    pub fn token_reader(&self) -> TokenReader<'_>
        ensures { result ≡ map direct_bytes self.now }
    {
        TokenReader {
            records: self.records.as_slice(),
            strings: self.strings.slices(),
        }
    }

    /// The index of the first use of a name in a range, or the end of the range if there is none.
    pub fn next_use(&self, part: Part) -> u32
        requires { part.first ≤ part.after }
        ensures { IsNextNumber is_name_use self.now part result }
    {
        next_in_range(self.token_index.uses.as_slice(), part)
    }

    /// Sets the flags of the names that the tokens of a range use.
    pub(crate) fn flag_uses(
        &self,
        part: Part,
        resolutions: &[Result<NameId, NameKind>],
        used: &mut [bool],
    )
        requires ordered { part.first ≤ part.after }
        requires within { part.after ≤ length self.now }
        requires known { AreWithin resolutions.now (length used.old) }
        ensures { FlagsToo
            (λ n. list_any (is_use resolutions.now n) (slice_range self.now part.first part.after))
            used.old used.new }
    {
        let mut rest = numbers_from(self.token_index.uses.as_slice(), part.first);
        'uses: while let Some((number, later)) = rest.split_first() {
            if *number >= part.after {
                return;
            }
            flag_use(self.token(*number as usize), resolutions, used);
            rest = later;
        }
    }

    /// Whether there is a Defs in a range.
    pub(crate) fn has_defs(&self, part: Part) -> bool
        requires ordered { part.first ≤ part.after }
        requires within { part.after ≤ length self.now }
        ensures { result ≡ list_any is_defs (slice_range self.now part.first part.after) }
    {
        next_in_range(self.token_index.defs.as_slice(), part) < part.after
    }

    /// The number of bytes of all strings.
    pub fn text_bytes(&self) -> usize
        ensures strings { AreInOneList result (flat_map token_strings self.now) }
        ensures once { result ≡ interned_token_bytes self.now }
        ensures few { result < 2 ^ 63 }
    {
        self.strings.text_bytes()
    }
}

// Sets the flag of the name that a token uses, if it uses one.
fn flag_use(token: Token<'_>, resolutions: &[Result<NameId, NameKind>], used: &mut [bool])
    requires { AreWithin resolutions.now (length used.old) }
    ensures { FlagsToo (λ n. is_use resolutions.now n (token_model token.entry)) used.old used.new }
{
    if let Token::Name(name) = token {
        if let Some(id) = resolved_at(resolutions, name.0 as usize) {
            used[id.0 as usize] = true;
        }
    }
}
