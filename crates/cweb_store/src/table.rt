// The occurrences of names, while they are added.
ghost use Rattle.std.specs.Prelude.{◌≡◌, ◌<◌, ◌+◌, ◌++◌, ◌∷◌, [], length, IfOk, OnOk, OnErr};
ghost use Rattle.cweb_store.specs.surface.Tokens.{occurrence_of, too_many};

use crate::name::{How, NameRef};
use crate::occurrences::{OccurrenceRecord, Occurrences};
use crate::string_table::StringTable;
use crate::tokens::unaligned::Unaligned;
use std::alloc::{AllocError, Global};
use std::marker::Model;

/// The occurrences of names, in order. Their spellings are interned.
#[derive(Drop)]
pub struct NameTable {
    alloc: Global,
    strings: StringTable,
    records: Vec<OccurrenceRecord>,
}

impl Model for NameTable {
    ghost use Rattle.std.specs.Prelude.{List};
    ghost use Rattle.cweb_store.specs.Names.{Occurrence};

    ghost Value = { List Occurrence };

    ghost use Rattle.cweb_store.specs.inner.Known.{IsNameTable, occurrences_at};

    ghost view = { λ s. occurrences_at s.strings.strings s.records.items };

    ghost invariant = { λ s. IsNameTable s.strings s.records.items };
}

impl NameTable {
    /// No occurrence. It allocates nothing.
    pub fn new(alloc: Global) -> NameTable
        ensures { result ≡ [] }
    {
        NameTable {
            alloc,
            strings: StringTable::new(alloc),
            records: Vec::new(alloc),
        }
    }

    /// The number of occurrences.
    pub fn len(&self) -> usize
        ensures { result ≡ length self.now }
    {
        self.records.len()
    }

    /// Appends an occurrence and returns its number. If memory is refused, nothing changes.
    pub fn add(&mut self, name: &[u8], how: How, is_file: bool) -> Result<NameRef, AllocError>
        requires { length self.old + 1 < too_many }
        ensures number { IfOk result (λ name. name.0 ≡ length self.old) }
        ensures added { OnOk result
            (self.new ≡ self.old ++ occurrence_of name.now how is_file ∷ []) }
        ensures err { OnErr result (self.new ≡ self.old) }
    {
        self.records.reserve(1)?;
        let number = self.records.len();
        let spelling = self.strings.intern_spelling(name)?;
        self.records.push_reserved(OccurrenceRecord {
            spelling: Unaligned::of(spelling),
            how,
            is_file,
        });
        Ok(NameRef(number as u32))
    }

    /// The finished occurrences. What finds interned spellings is freed.
    pub fn close(self) -> Occurrences
        ensures { result ≡ self }
    {
        let NameTable {
            alloc,
            strings,
            records,
        } = self;
        Occurrences {
            alloc,
            strings: strings.close(),
            records,
        }
    }
}
