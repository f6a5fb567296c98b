// The builder: accepts what a scan finds, call by call, and makes the store.
ghost use Rattle.std.specs.Prelude.{◌≡◌, ◌<◌, ◌≤◌, ◌+◌, length, IsSome, IsNone, is_some, IfOk, IsTrue, OnOk, OnErr};
ghost use Rattle.cweb_store.specs.surface.Tokens.{part_count, token_count, replacement_of, occurrence_of, too_many};
ghost use Rattle.cweb_store.specs.Calls.{empty, finished, with_closed, with_dropped, with_occurrence, with_open};
ghost use Rattle.cweb_store.specs.Calls.{with_replacement, with_token};

use crate::parts::closed::ClosedParts;
use crate::parts::{Open, PartKind, PartRange};
use crate::replacements::Replacements;
use crate::table::NameTable;
use crate::tokens::layout::{end_at_close, end_before_layout};
use crate::tokens::list::TokenList;
use crate::{How, NameRef, Store, Token};
use std::alloc::{AllocError, Global};
use std::marker::Model;

// The maximum number of occurrences, of parts and of tokens.
const FULL: usize = u32::MAX as usize - 1;

/// The contents of a web so far: occurrences, parts and transliterations. The tokens of all parts are in one list, with
/// the range of each closed part in it. A refused call may be repeated.
pub struct Builder {
    alloc: Global,
    names: NameTable,
    tokens: TokenList,
    ranges: Vec<PartRange>,
    current: Option<Open>,
    replacements: Replacements,
}

impl Drop for Builder {
    fn drop(self) {
        let Self {
            alloc: _,
            names: _,
            tokens: _,
            ranges: _,
            current: _,
            replacements: _,
        } = self;
    }
}

impl Model for Builder {
    ghost use Rattle.cweb_store.specs.surface.Tokens.{BuilderModel};

    ghost Value = { BuilderModel };

    ghost use Rattle.std.specs.Prelude.{vec_capacity};
    ghost use Rattle.cweb_store.specs.inner.PartRanges.{parts_in, ArePartRanges};

    ghost view = { λ s.
        record {
          contents = record {
            occurrences = s.names;
            parts = parts_in s.tokens.tokens s.ranges.items s.current;
            replacements = s.replacements;
          };
          rooms = record { tokens = s.tokens.rooms; ranges = vec_capacity s.ranges };
        } };

    ghost invariant = { λ s.
        ArePartRanges s.tokens.tokens s.ranges.items s.current (vec_capacity s.ranges) };
}

impl Builder {
    ghost use Rattle.cweb_store.specs.surface.Tokens.{token_model};

    /// An empty builder.
    pub fn new(alloc: Global) -> Builder
        ensures { result.contents ≡ empty }
    {
        Builder {
            alloc,
            names: NameTable::new(alloc),
            tokens: TokenList::new(alloc),
            ranges: Vec::new(alloc),
            current: None,
            replacements: Replacements::new(alloc),
        }
    }

    /// Adds an occurrence and returns its index. `name` is a full name, or an abbreviation's prefix without the dots.
    pub fn occurrence(
        &mut self,
        name: &[u8],
        how: How,
        is_file: bool,
    ) -> Result<NameRef, AllocError>
        requires { length self.old.contents.occurrences + 1 < too_many }
        ensures number { IfOk result (λ name. name.0 ≡ length self.old.contents.occurrences) }
        ensures added { OnOk result (self.new.contents
            ≡ with_occurrence (occurrence_of name.now how is_file) self.old.contents) }
        ensures err { OnErr result (self.new.contents ≡ self.old.contents) }
    {
        self.names.add(name, how, is_file)
    }

    /// Whether one more occurrence, one more part and one more token are within their limits.
    pub fn has_room(&self) -> bool
        ensures occurrences { IsTrue result → length self.now.contents.occurrences + 1 < too_many }
        ensures parts { IsTrue result → part_count self.now.contents.parts + 1 < too_many }
        ensures tokens { IsTrue result → token_count self.now.contents.parts + 1 < too_many }
        ensures room { length self.now.contents.occurrences + 1 < too_many →
            part_count self.now.contents.parts + 1 < too_many →
            token_count self.now.contents.parts + 1 < too_many → IsTrue result }
    {
        self.names.len() < FULL && self.part_count() < FULL && self.tokens.len() < FULL
    }

    // The number of parts, the open one included.
    fn part_count(&self) -> usize
        ensures { result ≡ part_count self.now.contents.parts }
    {
        match self.current {
            Some(_) => self.ranges.len() + 1,
            None => self.ranges.len(),
        }
    }

    /// Whether a part is open.
    pub fn is_open(&self) -> bool
        ensures { result ≡ is_some self.now.contents.parts.current }
    {
        self.current.is_some()
    }

    /// Begins a part, which is open until it is closed. A refused call changes nothing.
    pub fn open_part(&mut self, kind: PartKind) -> Result<(), AllocError>
        requires closed { IsNone self.old.contents.parts.current }
        requires few { part_count self.old.contents.parts + 1 < too_many }
        ensures ok { OnOk result (self.new.contents ≡ with_open kind self.old.contents) }
        ensures err { OnErr result (self.new.contents ≡ self.old.contents) }
    {
        // Reserves the range, so that `close_part` cannot fail.
        self.ranges.reserve(1)?;
        let first = self.tokens.len() as u32;
        self.current = Some(Open { kind, first });
        Ok(())
    }

    /// Appends a token to the open part. A refused call changes nothing.
    #[inline(always)]
    pub fn push(&mut self, token: Token<'_>) -> Result<(), AllocError>
        requires open { IsSome self.old.contents.parts.current }
        requires few { token_count self.old.contents.parts + 1 < too_many }
        ensures ok { OnOk result
            (self.new.contents ≡ with_token (token_model token.entry) self.old.contents) }
        ensures err { OnErr result (self.new.contents ≡ self.old.contents) }
    {
        self.tokens.push(token)?;
        Ok(())
    }

    /// Drops the open part's trailing Blanks, Newlines and Marks, but no macro's first two tokens. Allocates nothing.
    pub fn drop_layout(&mut self)
        requires { IsSome self.old.contents.parts.current }
        ensures contents { self.new.contents ≡ with_dropped self.old.contents }
        ensures rooms { self.new.rooms ≡ self.old.rooms }
    {
        let Some(current) = self.current else {
            return;
        };
        let end = end_before_layout(&self.tokens, current);
        self.tokens.truncate(end);
    }

    /// Ends the open part. A macro loses its trailing Newlines, and then a trailing Blank. Allocates nothing.
    pub fn close_part(&mut self)
        requires { IsSome self.old.contents.parts.current }
        ensures contents { self.new.contents ≡ with_closed self.old.contents }
        ensures rooms { self.new.rooms ≡ self.old.rooms }
    {
        let Some(current) = self.current else {
            return;
        };
        let end = end_at_close(&self.tokens, current);
        self.tokens.truncate(end);
        self.current = None;
        self.ranges.push_reserved(current.up_to(end as u32));
    }

    /// Sets the replacement of a byte from 128 on in printed Words (CWEB manual, `@l`). The last call for a byte wins.
    pub fn transliterate(&mut self, byte: u8, new: &[u8]) -> Result<(), AllocError>
        requires { 128 ≤ byte }
        ensures ok { OnOk result (self.new.contents
            ≡ with_replacement (replacement_of byte new.now) self.old.contents) }
        ensures err { OnErr result (self.new.contents ≡ self.old.contents) }
    {
        self.replacements.add(byte, new)
    }

    /// Makes the store. An open part ends here, without the drops of `close_part`. A failed call consumes the builder.
    pub fn finish(self) -> Result<Store, AllocError>
        ensures { IfOk result (λ store. store ≡ finished self.contents) }
    {
        let Builder {
            alloc,
            names,
            tokens,
            ranges,
            current,
            replacements,
        } = self;
        Store::new(
            alloc,
            names,
            ClosedParts::new(tokens, ranges, current),
            replacements,
        )
    }
}
