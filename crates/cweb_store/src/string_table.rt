// Strings in one table, those that repeat stored once.
ghost use Rattle.std.specs.Prelude.{◌≡◌, ◌<◌, ◌+◌, ℕ, Some, false, length, slice_get, IfSome};
ghost use Rattle.cweb_store.specs.inner.Words.{key_of};
ghost use Rattle.cweb_store.specs.inner.StringTables.{AreByteIds, IsByteId, InternsWord, StringTableModel, TakesString};
ghost use Rattle.cweb_store.specs.inner.StringTables.{TakesWord, empty_table, has_word, string_limit};

use crate::strings::{Interned, StringList};
use crate::words::intern_sorted;
use crate::words::key::{KEY_BYTES, Key};
use crate::words::table::WordTable;
use std::alloc::{AllocError, Global};
use std::collections::BTreeMap;
use std::marker::Model;

// The number of distinct bytes.
const BYTES: usize = 256;

/// Strings, and interned words, numbers and punctuators among them. A word is in a hash table, or in a sorted map where
/// the table does not take it: so no choice of words makes this slow. One of a single byte is found by that byte alone.
#[derive(Drop)]
pub struct StringTable {
    alloc: Global,
    strings: StringList,
    table: WordTable,
    sorted: BTreeMap<Vec<u8>, u32>,
    // for each byte 0, or one more than the number of the interned string that is this byte; empty at first
    byte_ids: Vec<u32>,
}

impl Model for StringTable {
    ghost use Rattle.cweb_store.specs.inner.StringTables.{StringTableModel, table_model, IsStringTable};

    ghost Value = { StringTableModel };

    ghost view = { λ s. table_model s.strings s.table.words s.sorted.entries };

    ghost invariant = { λ s.
        IsStringTable s.strings s.table.words s.sorted.entries s.byte_ids.items };
}

impl StringTable {
    /// An empty table. It takes no memory.
    pub fn new(alloc: Global) -> StringTable
        ensures { result ≡ empty_table }
    {
        StringTable {
            alloc,
            strings: StringList::new(alloc),
            table: WordTable::new(alloc),
            sorted: BTreeMap::new(alloc),
            byte_ids: Vec::new(alloc),
        }
    }

    /// Appends a string that is not interned, and returns its number. A refused call changes nothing.
    pub fn add_string(&mut self, string: &[u8]) -> Result<u32, AllocError>
        requires few { length self.old.strings + 1 < string_limit }
        ensures { TakesString self.old string.now result self.new }
    {
        let number = self.strings.add(string)?;
        Ok(number as u32)
    }

    /// Interns a word or a number, and returns its number in the table: an equal one keeps its number.
    // The fast path finds a short word, the latest of its bucket, and calls no function. So long words leave it first.
    pub fn intern_word(&mut self, word: &[u8]) -> Result<u32, AllocError>
        requires few { length self.old.strings + 1 < string_limit }
        ensures { TakesWord self.old word.now result self.new }
    {
        if let Some(number) = self.known_byte(word) {
            return Ok(number);
        }
        if word.len() == 1 {
            return self.intern_byte(word);
        }
        if word.len() > KEY_BYTES {
            return self.intern_long(word);
        }
        let key = Key::of(word);
        match self.table.latest(key) {
            Some(latest) if latest.is_short(key, word) => Ok(latest.number),
            _ => self.intern_uncached(Interned::Word, key, word),
        }
    }

    /// Interns a punctuator as `intern_word` does. Many are one byte, which is found without a call.
    #[inline(always)]
    pub fn intern_punctuator(&mut self, punctuator: &[u8]) -> Result<u32, AllocError>
        requires few { length self.old.strings + 1 < string_limit }
        ensures { TakesWord self.old punctuator.now result self.new }
    {
        if let Some(number) = self.known_byte(punctuator) {
            return Ok(number);
        }
        self.intern_word(punctuator)
    }

    // The number of a string of one byte that was interned before.
    #[inline(always)]
    fn known_byte(&self, string: &[u8]) -> Option<u32>
        ensures { IfSome result (λ number. InternsWord self.now string.now number self.now) }
    {
        match string {
            [byte] => byte_id(self.byte_ids.as_slice(), *byte),
            _ => None,
        }
    }

    // Interns a word of one byte, and records its number for the fast path.
    #[inline(never)]
    fn intern_byte(&mut self, word: &[u8]) -> Result<u32, AllocError>
        requires few { length self.old.strings + 1 < string_limit }
        ensures { TakesWord self.old word.now result self.new }
    {
        let number = self.intern_uncached(Interned::Word, Key::of(word), word)?;
        if let [byte] = word {
            self.begin();
            set_byte_id(&mut self.byte_ids, *byte, number);
        }
        Ok(number)
    }

    // Allocates `byte_ids`, unless it is there. If memory is refused, the table works without it.
    fn begin(&mut self)
        ensures { self.new ≡ self.old }
    {
        if self.byte_ids.len() != 0 {
            return;
        }
        if let Ok(byte_ids) = Vec::from_elem(self.alloc, 0, BYTES) {
            self.byte_ids = byte_ids;
        }
    }

    // Interns a word that its key and its length do not determine.
    #[inline(never)]
    fn intern_long(&mut self, word: &[u8]) -> Result<u32, AllocError>
        requires few { length self.old.strings + 1 < string_limit }
        ensures { TakesWord self.old word.now result self.new }
    {
        self.intern_uncached(Interned::Word, Key::of(word), word)
    }

    /// Interns the spelling of a name as `intern_word` does. Most are long, and no edge is stored.
    pub fn intern_spelling(&mut self, spelling: &[u8]) -> Result<u32, AllocError>
        requires few { length self.old.strings + 1 < string_limit }
        ensures { TakesWord self.old spelling.now result self.new }
    {
        self.intern_uncached(Interned::Spelling, Key::of(spelling), spelling)
    }

    // Interns a word that the fast path did not find.
    #[inline(never)]
    fn intern_uncached(&mut self, kind: Interned, key: Key, word: &[u8]) -> Result<u32, AllocError>
        requires key { key ≡ key_of word.now }
        requires few { length self.old.strings + 1 < string_limit }
        ensures { TakesWord self.old word.now result self.new }
    {
        if let Some(number) = self.table.find(&self.strings, key, word) {
            return Ok(number);
        }
        if self.table.is_full(key) {
            let number = intern_sorted(self.alloc, &mut self.strings, &mut self.sorted, word)?;
            return Ok(number);
        }
        if let Some(number) = self.sorted.get(word).copied() {
            return Ok(number);
        }
        self.add_new_word(kind, key, word)
    }

    // Adds a word that is not interned yet to the table.
    fn add_new_word(&mut self, kind: Interned, key: Key, word: &[u8]) -> Result<u32, AllocError>
        requires key { key ≡ key_of word.now }
        requires few { length self.old.strings + 1 < string_limit }
        requires absent { has_word self.old word.now ≡ false }
        ensures { TakesWord self.old word.now result self.new }
    {
        let number = self.strings.add_interned(kind, word)?;
        if self.table.push(key, word.len(), number as u32) {
            return Ok(number as u32);
        }
        self.strings.truncate(number);
        Err(AllocError)
    }

    /// The strings.
    pub fn strings(&self) -> &StringList
        ensures { result.now ≡ self.now.strings }
    {
        &self.strings
    }

    /// The strings. What finds interned words is freed.
    pub fn close(self) -> StringList
        ensures { result ≡ self.strings }
    {
        let StringTable { strings: list, .. } = self;
        list
    }
}

// The recorded number of the interned string that is a byte.
#[inline(always)]
fn byte_id(byte_ids: &[u32], byte: u8) -> Option<u32>
    ensures some { IfSome result (λ number. slice_get byte_ids.now byte ≡ Some (number + 1)) }
    ensures known { (number : ℕ) → slice_get byte_ids.now byte ≡ Some (number + 1)
        → result ≡ Some number }
{
    match byte_ids.get(byte as usize) {
        Some(entry) if *entry > 0 => Some(*entry - 1),
        _ => None,
    }
}

// Records the number of the interned string that is a byte, if there is a table and the entry fits.
fn set_byte_id(byte_ids: &mut Vec<u32>, byte: u8, number: u32)
    ensures byte_ids { (kept : StringTableModel) → AreByteIds kept byte_ids.old.items
        → IsByteId kept byte number
        → AreByteIds kept byte_ids.new.items }
    ensures recorded { byte < length byte_ids.old.items → number < 4294967295
        → slice_get byte_ids.new.items byte ≡ Some (number + 1) }
{
    let place = byte as usize;
    if place < byte_ids.len() && number < u32::MAX {
        byte_ids[place] = number + 1;
    }
}
