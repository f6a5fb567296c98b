// Finished parts.
ghost use Rattle.std.specs.Prelude.{◌≡◌, ◌<◌, length, IfOk};
ghost use Rattle.cweb_store.specs.surface.Tokens.{too_many};
ghost use Rattle.cweb_store.specs.Parts.{all_tokens, has_defs_code};
ghost use Rattle.cweb_store.specs.inner.PartRanges.{ranges_from};
ghost use Rattle.cweb_store.specs.Faults.{is_used};
ghost use Rattle.cweb_store.specs.inner.Stored.{AreWithin, flag_of};

use crate::name::{NameId, NameKind};
use crate::parts::{Open, PartRange};
use crate::tokens::closed::ClosedTokens;
use crate::tokens::list::TokenList;
use std::alloc::{AllocError, Global};
use std::marker::Model;

/// Finished parts: all tokens in one list, and the range of each part in it.
#[derive(Drop)]
pub struct ClosedParts {
    pub(crate) tokens: ClosedTokens,
    pub(crate) ranges: Vec<PartRange>,
}

impl Model for ClosedParts {
    ghost use Rattle.std.specs.Prelude.{List, map};
    ghost use Rattle.cweb_store.specs.Parts.{Part};

    ghost Value = { List Part };

    ghost use Rattle.cweb_store.specs.inner.PartRanges.{closed_in, IsWhole};

    ghost view = { λ s. map (closed_in s.tokens) s.ranges.items };

    ghost invariant = { λ s. IsWhole s.tokens s.ranges.items };
}

impl ClosedParts {
    ghost use Rattle.std.specs.Prelude.{vec_capacity};
    ghost use Rattle.cweb_store.specs.inner.PartRanges.{parts_in, ArePartRanges};
    ghost use Rattle.cweb_store.specs.surface.Tokens.{all_parts};

    /// The closed parts, and an open one, which ends here.
    pub fn new(tokens: TokenList, mut ranges: Vec<PartRange>, current: Option<Open>) -> ClosedParts
        requires { ArePartRanges tokens.tokens ranges.items current (vec_capacity ranges) }
        ensures { result ≡ all_parts (parts_in tokens.tokens ranges.items current) }
    {
        let tokens = tokens.close();
        let Some(current) = current else {
            return ClosedParts { tokens, ranges };
        };
        ranges.push_reserved(current.up_to(tokens.len() as u32));
        ClosedParts { tokens, ranges }
    }

    /// The ranges of the parts, in order.
    pub fn ranges(&self) -> &[PartRange]
        ensures ranges { result.now ≡ ranges_from 0 self.now }
        ensures few { length result.now < too_many }
    {
        self.ranges.as_slice()
    }

    /// The tokens of all parts.
    #[inline(always)]
    pub fn tokens(&self) -> &ClosedTokens
        ensures tokens { result.now ≡ all_tokens self.now }
        ensures few { length result.now < too_many }
    {
        &self.tokens
    }

    /// For each name, whether the parts of C text use it.
    pub fn uses(
        &self,
        alloc: Global,
        resolutions: &[Result<NameId, NameKind>],
        names: usize,
    ) -> Result<Vec<bool>, AllocError>
        requires { AreWithin resolutions.now names }
        ensures { IfOk result
            (λ used. (n : NameId) → flag_of used.items n ≡ is_used resolutions.now self.now n) }
    {
        let mut used = vec![in alloc; false; names]?;
        for range in &self.ranges {
            if !range.kind.is_macro() {
                self.tokens.flag_uses(range.part, resolutions, &mut used);
            }
        }
        Ok(used)
    }

    /// Whether a part of C text has a Defs.
    pub fn has_defs_code(&self) -> bool
        ensures { result ≡ has_defs_code self.now }
    {
        for range in &self.ranges {
            if !range.kind.is_macro() && self.tokens.has_defs(range.part) {
                return true;
            }
        }
        false
    }
}
