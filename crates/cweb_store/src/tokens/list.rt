// A list of tokens.
ghost use Rattle.std.specs.Prelude.{◌≡◌, ◌<◌, ◌+◌, ◌++◌, ◌∷◌, [], filter, length, take, Some, slice_get, OnOk, OnErr};
ghost use Rattle.cweb_store.specs.surface.Tokens.{too_many};
ghost use Rattle.cweb_store.specs.inner.PartRanges.{has_string};

use crate::string_table::StringTable;
use crate::tokens::Token;
use crate::tokens::closed::ClosedTokens;
use crate::tokens::records::{Record, first_place, record_of, token_at};
use crate::tokens::token_index::TokenIndex;
use cweb_files::Place;
use std::alloc::{AllocError, Global};
use std::marker::Model;

/// Tokens as records, their strings, the places of the Marks, in order, and an index of uses and Defs.
pub struct TokenList {
    strings: StringTable,
    records: Vec<Record>,
    places: Vec<Place>,
    token_index: TokenIndex,
}

impl Drop for TokenList {
    fn drop(self) {
        let Self {
            strings: _,
            records: _,
            places: _,
            token_index: _,
        } = self;
    }
}

impl Model for TokenList {
    ghost use Rattle.std.specs.Prelude.{vec_capacity};
    ghost use Rattle.cweb_store.specs.inner.Records.{TokenListModel, tokens_of, AreIndexedTokens};

    ghost Value = { TokenListModel };

    ghost view = { λ s.
        record {
          tokens = tokens_of s.strings.strings s.places.items s.records.items;
          rooms = record {
            records = vec_capacity s.records;
            places = vec_capacity s.places;
            uses = vec_capacity s.token_index.uses;
            defs = vec_capacity s.token_index.defs;
          };
        } };

    ghost invariant = { λ s.
        AreIndexedTokens s.strings s.places.items s.records.items s.token_index };
}

impl TokenList {
    ghost use Rattle.cweb_store.specs.surface.Tokens.{token_model};

    /// An empty list.
    pub fn new(alloc: Global) -> TokenList
        ensures { result.tokens ≡ [] }
    {
        TokenList {
            strings: StringTable::new(alloc),
            records: Vec::new(alloc),
            places: Vec::new(alloc),
            token_index: TokenIndex::new(alloc),
        }
    }

    /// The number of tokens.
    pub fn len(&self) -> usize
        ensures { result ≡ length self.now.tokens }
    {
        self.records.len()
    }

    /// Appends a token. A refused call changes nothing.
    #[inline(always)]
    pub fn push(&mut self, token: Token<'_>) -> Result<(), AllocError>
        requires few { length self.old.tokens + 1 < too_many }
        ensures ok { OnOk result (self.new.tokens ≡ self.old.tokens ++ token_model token.entry
            ∷ []) }
        ensures err { OnErr result (self.new.tokens ≡ self.old.tokens) }
    {
        self.records.reserve(1)?;
        let number = self.records.len() as u32;
        let record = record_of(
            &mut self.strings,
            &mut self.places,
            &mut self.token_index,
            number,
            token,
        )?;
        self.records.push_reserved(record);
        Ok(())
    }

    /// The token at an index.
    pub fn token(&self, number: usize) -> Token<'_>
        requires { number < length self.now.tokens }
        ensures { slice_get self.now.tokens number ≡ Some (token_model result) }
    {
        token_at(
            self.strings.strings(),
            self.places.as_slice(),
            self.records.as_slice(),
            number,
        )
    }

    /// Truncates to the first `count` tokens. The dropped ones have no string. Allocates nothing.
    pub fn truncate(&mut self, count: usize)
        requires { filter has_string (take count self.old.tokens)
            ≡ filter has_string self.old.tokens }
        ensures tokens { self.new.tokens ≡ take count self.old.tokens }
        ensures rooms { self.new.rooms ≡ self.old.rooms }
    {
        if count >= self.records.len() {
            return;
        }
        let places = first_place(&self.records[count..], self.places.len());
        self.places.truncate(places);
        self.records.truncate(count);
        self.token_index.truncate(count);
    }

    /// The finished tokens. What interns words is freed.
    pub fn close(self) -> ClosedTokens
        ensures { result ≡ self.tokens }
    {
        let TokenList {
            strings,
            records,
            places,
            token_index,
        } = self;
        ClosedTokens {
            strings: strings.close(),
            records,
            places,
            token_index,
        }
    }
}
