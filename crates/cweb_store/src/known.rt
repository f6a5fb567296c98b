// The names that are given in full.
ghost use Rattle.std.specs.Prelude.{◌≡◌, ◌<◌, map, length, slice_get, option_map, Some, IfOk, OnOk, bytes_eq};
ghost use Rattle.std.specs.List.{list_any, position_or_len};
ghost use Rattle.cweb_store.specs.Names.{Occurrence, beginning, is_prefix_of_another, spellings};
ghost use Rattle.cweb_store.specs.Names.{with_full_name, with_occurrence_name};
ghost use Rattle.cweb_store.specs.surface.Tokens.{occurrence_text};
ghost use Rattle.cweb_store.specs.inner.Known.{found_of, early, no_names, numbered};
ghost use Rattle.cweb_store.specs.inner.StringLists.{string_at};

use crate::found::{Found, find_one, has_prefix};
use crate::name::{NameId, NameKind};
use crate::occurrences::Occurrences;
use crate::sorted::SortKey;
use std::alloc::{AllocError, Global};
use std::collections::BTreeMap;
use std::marker::Model;

/// The names that are given in full among occurrences, numbered in this order. A sorted map finds the names with a prefix.
/// No text is copied.
#[derive(Drop)]
pub struct KnownNames<'a> {
    occurrences: &'a Occurrences,
    // for each name the number of the occurrence that first gave it in full
    firsts: Vec<u32>,
    sorted: BTreeMap<SortKey<'a>, NameId>,
}

impl<'a> Model for KnownNames<'a> {
    ghost use Rattle.std.specs.Prelude.{map};
    ghost use Rattle.cweb_store.specs.surface.Tokens.{occurrence_text};
    ghost use Rattle.cweb_store.specs.inner.Known.{NamesSoFar};

    ghost Value = { NamesSoFar };

    ghost use Rattle.cweb_store.specs.inner.Known.{AreKnown, names_at};

    ghost view = { λ s.
        record {
          strings = map occurrence_text s.occurrences.now;
          names = names_at (map occurrence_text s.occurrences.now) s.firsts.items;
        } };

    ghost invariant = { λ s.
        AreKnown (map occurrence_text s.occurrences.now) s.firsts.items s.sorted.entries };
}

impl<'a> KnownNames<'a> {
    /// No names.
    pub(crate) fn new(alloc: Global, occurrences: &'a Occurrences) -> KnownNames<'a>
        ensures { result ≡ no_names (map occurrence_text occurrences.now) }
    {
        KnownNames {
            occurrences,
            firsts: Vec::new(alloc),
            sorted: BTreeMap::new(alloc),
        }
    }

    /// The number of names.
    pub fn len(&self) -> usize
        ensures { result ≡ length self.now.names }
    {
        self.firsts.len()
    }

    /// Adds the name of an occurrence that is resolved to its number, and resolves any other among the names so far.
    pub(crate) fn take(
        &mut self,
        number: u32,
        resolution: Result<NameId, NameKind>,
    ) -> Result<Result<NameId, NameKind>, AllocError>
        requires within { number < length self.old.strings }
        requires numbered { IfOk resolution (λ id. id.0 ≡ position_or_len
            (bytes_eq (string_at self.old.strings number)) (spellings self.old.names)) }
        ensures early { (o : Occurrence) → o.text ≡ string_at self.old.strings number
            → resolution ≡ numbered self.old.names o
            → IfOk result (λ found. found ≡ early self.old.names o) }
        ensures names { (o : Occurrence) → o.text ≡ string_at self.old.strings number
            → resolution ≡ numbered self.old.names o
            → OnOk result (self.new.names ≡ with_occurrence_name number self.old.names o) }
        ensures strings { OnOk result (self.new.strings ≡ self.old.strings) }
    {
        match resolution {
            Ok(id) => {
                self.add(number, id)?;
                Ok(Ok(id))
            }
            Err(_) => Ok(self.find(number).resolution()),
        }
    }

    // Adds the name that occurrence `first` gives in full, unless its number is that of a known name.
    fn add(&mut self, first: u32, id: NameId) -> Result<(), AllocError>
        requires within { first < length self.old.strings }
        requires number { id.0 ≡ position_or_len (bytes_eq (string_at self.old.strings first))
            (spellings self.old.names) }
        ensures names { OnOk result (self.new.names
            ≡ with_full_name first self.old.names (string_at self.old.strings first)) }
        ensures strings { OnOk result (self.new.strings ≡ self.old.strings) }
    {
        if (id.0 as usize) < self.firsts.len() {
            return Ok(());
        }
        self.firsts.reserve(1)?;
        let spelling = self.occurrences.text(first as usize);
        self.sorted.insert(SortKey::new(spelling), id)?;
        self.firsts.push_reserved(first);
        Ok(())
    }

    /// The names that begin with the spelling of an occurrence: none, one or several.
    pub(crate) fn find(&self, number: u32) -> Found
        requires { number < length self.now.strings }
        ensures { result
            ≡ found_of (beginning (string_at self.now.strings number) self.now.names) }
    {
        find_one(&self.sorted, self.occurrences.text(number as usize))
    }

    /// The number of the occurrence that first gave a name in full.
    pub fn first(&self, id: NameId) -> u32
        requires { id.0 < length self.now.names }
        ensures { option_map (λ n. n.first) (slice_get self.now.names id.0) ≡ Some result }
    {
        self.firsts[id.0 as usize]
    }

    /// For each name the number of the occurrence that first gave it in full.
    pub fn close(self) -> Vec<u32>
        ensures { result.items ≡ map (λ n. n.first) self.entry.names }
    {
        let KnownNames { firsts, .. } = self;
        firsts
    }

    /// Whether any name is a proper prefix of another one.
    pub fn has_prefix(&self) -> bool
        ensures { result ≡ list_any (is_prefix_of_another self.now.names)
            (spellings self.now.names) }
    {
        has_prefix(&self.sorted)
    }

    /// Whether this name is a proper prefix of another one: if so, several names begin with it, itself included.
    pub fn is_prefix(&self, id: NameId) -> bool
        requires { id.0 < length self.now.names }
        ensures { option_map (λ n. is_prefix_of_another self.now.names n.text)
            (slice_get self.now.names id.0) ≡ Some result }
    {
        self.find(self.firsts[id.0 as usize]).is_several()
    }
}
