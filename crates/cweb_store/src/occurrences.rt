// The occurrences of names, and what they resolve to.
ghost use Rattle.std.specs.Prelude.{◌≡◌, ◌<◌, ◌+◌, ◌^◌, [], List, ℕ, map, length, option_map, slice_get, Some};
ghost use Rattle.std.specs.Prelude.{IfOk, IfSome, OnOk};
ghost use Rattle.cweb_store.specs.Names.{names, resolutions};
ghost use Rattle.cweb_store.specs.inner.Known.{files_from, earlies_from, number_at, numbered_from, with_number};
ghost use Rattle.cweb_store.specs.inner.Known.{ArePositions, IsPosition};
ghost use Rattle.cweb_store.specs.surface.Tokens.{AreInOneList, distinct_strings, occurrence_text, too_many, total};

use crate::known::KnownNames;
use crate::name::{How, NameId, NameKind};
use crate::resolution::{Resolutions, resolve_all, resolved_at};
use crate::strings::StringList;
use crate::tokens::unaligned::Unaligned;
use indexmap::IndexSet;
use std::alloc::{AllocError, Global};
use std::marker::Model;

/// An occurrence with the number of its spelling. It takes six bytes, since the number needs no alignment.
#[derive(Clone, Copy)]
pub struct OccurrenceRecord {
    pub spelling: Unaligned,
    pub how: How,
    pub is_file: bool,
}

/// Finished occurrences of names, in order. Equal spellings are stored once, so their numbers are equal.
#[derive(Drop)]
pub struct Occurrences {
    pub(crate) alloc: Global,
    pub(crate) strings: StringList,
    pub(crate) records: Vec<OccurrenceRecord>,
}

impl Model for Occurrences {
    ghost use Rattle.std.specs.Prelude.{List};
    ghost use Rattle.cweb_store.specs.Names.{Occurrence};

    ghost Value = { List Occurrence };

    ghost use Rattle.cweb_store.specs.inner.Known.{IsOccurrenceTable, occurrences_at};

    ghost view = { λ s. occurrences_at s.strings s.records.items };

    ghost invariant = { λ s. IsOccurrenceTable s.strings s.records.items };
}

impl Occurrences {
    /// The number of occurrences.
    pub fn len(&self) -> usize
        ensures count { result ≡ length self.now }
        ensures few { result < too_many }
    {
        self.records.len()
    }

    /// The spelling of an occurrence.
    pub fn text(&self, number: usize) -> &[u8]
        requires { number < length self.now }
        ensures { option_map occurrence_text (slice_get self.now number) ≡ Some result.now }
    {
        self.strings
            .string(self.records[number].spelling.get() as usize)
    }

    /// The number of bytes of all spellings, each counted once.
    pub fn text_bytes(&self) -> usize
        ensures strings { AreInOneList result (map occurrence_text self.now) }
        ensures once { result ≡ total length (distinct_strings (map occurrence_text self.now)) }
        ensures few { result < 2 ^ 63 }
    {
        self.strings.text_bytes()
    }

    /// The names that are given in full, and what each occurrence resolves to: a name or its fault.
    pub fn resolve(&self) -> Result<(KnownNames<'_>, Resolutions), AllocError>
        ensures names { IfOk result (λ all. all.0.names ≡ names self.now) }
        ensures resolutions { IfOk result (λ all. all.1.items ≡ resolutions self.now) }
        ensures few_names { IfOk result (λ all. length all.0.names < too_many) }
        ensures few { IfOk result (λ all. length all.1.items < 2 ^ 32) }
    {
        // the number of occurrences bounds that of names
        let _count = self.records.len();
        let (known, mut all) = self.known()?;
        resolve_all(&known, &mut all);
        Ok((known, all))
    }

    // The names, and what each occurrence resolves to among those up to it.
    fn known(&self) -> Result<(KnownNames<'_>, Resolutions), AllocError>
        ensures names { IfOk result (λ all. all.0.names ≡ names self.now) }
        ensures strings { IfOk result (λ all. all.0.strings ≡ map occurrence_text self.now) }
        ensures early { IfOk result (λ all. all.1.items ≡ earlies_from 0 [] self.now) }
    {
        let mut all = self.numbered()?;
        let mut known = KnownNames::new(self.alloc, self);
        for i in 0..all.len() {
            all[i] = known.take(i as u32, all[i])?;
        }
        Ok((known, all))
    }

    // Resolves each full name to its number, and no abbreviation. The numbers of spellings are a set in order of first
    // sight, and nobody can choose them. A spelling that comes again is found by its number alone. Set and positions are
    // freed before names are sorted.
    fn numbered(&self) -> Result<Resolutions, AllocError>
        ensures { IfOk result (λ all. all.items ≡ numbered_from 0 [] self.now) }
    {
        let mut names = IndexSet::new(self.alloc);
        let mut positions = Vec::from_elem(self.alloc, None, self.strings.len())?;
        let mut all = Vec::with_capacity(self.alloc, self.records.len())?;
        for occurrence in &self.records {
            all.push(number_in(&mut names, &mut positions, *occurrence)?)?;
        }
        Ok(all)
    }

    /// The names of output files, in order of their first occurrence with `@(`.
    pub fn files(
        &self,
        resolutions: &[Result<NameId, NameKind>],
    ) -> Result<IndexSet<NameId>, AllocError>
        ensures { IfOk result (λ files. files.keys ≡ files_from resolutions.now [] 0 self.now) }
    {
        let mut files = IndexSet::new(self.alloc);
        for (i, occurrence) in self.records.iter().enumerate() {
            if occurrence.is_file {
                if let Some(id) = resolved_at(resolutions, i) {
                    files.insert(id)?;
                }
            }
        }
        Ok(files)
    }
}

// The number of a full name among those before it and its own. An abbreviation is not resolved.
fn number_in(
    names: &mut IndexSet<u32>,
    positions: &mut Vec<Option<NameId>>,
    occurrence: OccurrenceRecord,
) -> Result<Result<NameId, NameKind>, AllocError>
    requires few { length names.old.keys + 1 < 2 ^ 32 }
    requires positions { ArePositions names.old.keys positions.old.items }
    ensures number { IfOk result (λ number. number ≡ number_at names.old.keys occurrence) }
    ensures names { OnOk result (names.new.keys ≡ with_number names.old.keys occurrence) }
    ensures positions { OnOk result (ArePositions names.new.keys positions.new.items) }
{
    match occurrence.how {
        How::Full => {
            let spelling = occurrence.spelling.get();
            if let Some(id) = position_of(positions, spelling) {
                return Ok(Ok(id));
            }
            let (number, _) = names.insert_full(spelling)?;
            let id = NameId(number as u32);
            record_position(positions, spelling, id);
            Ok(Ok(id))
        }
        How::Prefix => Ok(Err(NameKind::NeverFull)),
    }
}

// The recorded position of a number.
fn position_of(positions: &[Option<NameId>], number: u32) -> Option<NameId>
    ensures { IfSome result (λ at. slice_get positions.now number ≡ Some (Some at)) }
{
    match positions.get(number as usize) {
        Some(at) => *at,
        None => None,
    }
}

// Records the position of a number, if there is an entry for it.
fn record_position(positions: &mut Vec<Option<NameId>>, number: u32, at: NameId)
    ensures { (numbers : List ℕ) → ArePositions numbers positions.old.items
        → IsPosition numbers number at
        → ArePositions numbers positions.new.items }
{
    let place = number as usize;
    if place < positions.len() {
        positions[place] = Some(at);
    }
}
