// Strings in one byte buffer.
ghost use Rattle.std.specs.Prelude.{◌≡◌, ◌<◌, ◌+◌, ◌^◌, [], List, ℕ, length, drop, take, slice_get, Some, IfOk, OnOk};
ghost use Rattle.cweb_store.specs.inner.StringLists.{IsStoredEdge, IsFromStart, TakesNext, text_bytes};

use crate::edges::{Edge, string_edge};
use crate::slices::StringSlices;
use std::alloc::{AllocError, Global};
use std::marker::Model;

/// What a string is interned for.
#[derive(Clone, Copy)]
pub enum Interned {
    /// For tokens: the printer asks for its edge.
    Word,
    /// For names: it is never printed.
    Spelling,
}

/// Strings, numbered from 0, one after another in one buffer. A word has its edge beside it. All strings together have
/// less than 4 GiB, which is four times what a web may have: so an offset takes four bytes.
#[derive(Drop)]
pub struct StringList {
    bytes: Vec<u8>,
    // the start of the first string, and the end of each, where the next one starts. Empty before the first string
    offsets: Vec<u32>,
    edges: Vec<Edge>,
}

impl Model for StringList {
    ghost use Rattle.std.specs.Prelude.{List, ℕ, drop};

    ghost Value = { List (List ℕ) };

    ghost use Rattle.cweb_store.specs.inner.StringLists.{strings_from, IsStringList};

    ghost view = { λ s. strings_from s.bytes.items 0 (drop 1 s.offsets.items) };

    ghost invariant = { λ s. IsStringList s.bytes.items s.offsets.items s.edges.items };
}

impl StringList {
    /// An empty list. It takes no memory.
    pub fn new(alloc: Global) -> StringList
        ensures { result ≡ [] }
    {
        StringList {
            bytes: Vec::new(alloc),
            offsets: Vec::new(alloc),
            edges: Vec::new(alloc),
        }
    }

    /// The number of strings.
    pub fn len(&self) -> usize
        ensures { result ≡ length self.now }
    {
        self.edges.len()
    }

    /// Appends a string without an edge, and returns its number. It is refused if there is no memory or no offset for it.
    pub fn add(&mut self, string: &[u8]) -> Result<usize, AllocError>
        ensures { TakesNext self.old string.now result self.new }
    {
        self.add_with_edge(string, Edge::Unknown)
    }

    /// Appends a word with its edge, and returns its number.
    pub fn add_word(&mut self, word: &[u8]) -> Result<usize, AllocError>
        ensures { TakesNext self.old word.now result self.new }
    {
        self.add_with_edge(word, string_edge(word))
    }

    /// Appends a string that is interned, and returns its number.
    pub fn add_interned(&mut self, kind: Interned, string: &[u8]) -> Result<usize, AllocError>
        ensures { TakesNext self.old string.now result self.new }
    {
        match kind {
            Interned::Word => self.add_word(string),
            Interned::Spelling => self.add(string),
        }
    }

    fn add_with_edge(&mut self, string: &[u8], edge: Edge) -> Result<usize, AllocError>
        requires { IsStoredEdge string.now edge }
        ensures { TakesNext self.old string.now result self.new }
    {
        let end = offset_of(self.bytes.len() + string.len())?;
        begin(&mut self.offsets)?;
        self.offsets.reserve(1)?;
        self.edges.reserve(1)?;
        self.bytes.extend_from_slice(string)?;
        let number = self.edges.len();
        self.offsets.push_reserved(end);
        self.edges.push_reserved(edge);
        Ok(number)
    }

    /// Drops all strings but the first `count`. It takes no memory.
    #[tactic(auto, using(crate::proofs::StringListLemmas::place_is))]
    pub fn truncate(&mut self, count: usize)
        requires { count < length self.old }
        ensures { self.new ≡ take count self.old }
    {
        // the length bounds `count + 1`
        let _offsets = self.offsets.len();
        self.bytes.truncate(self.offsets[count] as usize);
        self.offsets.truncate(count + 1);
        self.edges.truncate(count);
    }

    /// The strings as slices, with their edges.
    #[inline(always)]
    pub fn slices(&self) -> StringSlices<'_>
        ensures { result ≡ self.now }
    {
        StringSlices {
            bytes: self.bytes.as_slice(),
            offsets: self.offsets.as_slice(),
            edges: self.edges.as_slice(),
        }
    }

    /// The string with a number.
    pub fn string(&self, number: usize) -> &[u8]
        requires { number < length self.now }
        ensures { slice_get self.now number ≡ Some result.now }
    {
        self.slices().string(number)
    }

    /// The number of bytes of all strings.
    pub fn text_bytes(&self) -> usize
        ensures bytes { result ≡ length (text_bytes self.now) }
        ensures few { result < 2 ^ 63 }
    {
        self.bytes.len()
    }
}

// The offset after so many bytes.
#[inline(always)]
fn offset_of(bytes: usize) -> Result<u32, AllocError>
    ensures { IfOk result (λ offset. offset ≡ bytes) }
{
    if bytes > u32::MAX as usize {
        return Err(AllocError);
    }
    Ok(bytes as u32)
}

// Records the start of the first string, unless it is there.
fn begin(offsets: &mut Vec<u32>) -> Result<(), AllocError>
    requires { IsFromStart offsets.old.items }
    ensures begun { OnOk result (0 < length offsets.new.items) }
    ensures start { IsFromStart offsets.new.items }
    ensures ends { drop 1 offsets.new.items ≡ drop 1 offsets.old.items }
{
    if offsets.len() == 0 {
        offsets.reserve(1)?;
        offsets.push_reserved(0);
    }
    Ok(())
}
