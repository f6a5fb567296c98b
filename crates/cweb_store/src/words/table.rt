// A hash table of words.
ghost use Rattle.std.specs.Prelude.{◌≡◌, ◌<◌, ◌≤◌, ◌∷◌, ◌++◌, [], ℕ, List, Some, length, false, slice_get};
ghost use Rattle.std.specs.Prelude.{nat_le, slice_index_or, IfSome, MatchBool, MatchOption, vec_capacity, vec_len};
ghost use Rattle.cweb_store.specs.declared.words.word.Word.{Word};
ghost use Rattle.cweb_store.specs.inner.Words.{AreChains, key_of, DescribeStrings, FindsString, PushesWord};
ghost use Rattle.cweb_store.specs.inner.Words.{bucket_words, have_string, longest_chain};

use crate::strings::StringList;
use crate::words::key::{Key, home_bucket};
use crate::words::word::Word;
use std::alloc::Global;
use std::marker::Model;

// How many buckets there are at first.
const FIRST_BUCKETS: usize = 1024;

// How many words a chain has at most.
const LONGEST_CHAIN: usize = 8;

/// Words in the order in which they were added. Those of one bucket are a chain, the latest first. A link is 0 for none,
/// or one more than the index of a word.
#[derive(Drop)]
pub struct WordTable {
    alloc: Global,
    words: Vec<Word>,
    // for each bucket the link to its latest word
    heads: Vec<u32>,
    // for each word the link to the word of its bucket before it
    nexts: Vec<u32>,
}

impl Model for WordTable {
    ghost use Rattle.std.specs.Prelude.{length};
    ghost use Rattle.cweb_store.specs.inner.Words.{AreChains, WordTableModel};

    ghost Value = { WordTableModel };

    ghost view = { λ s. record { words = s.words.items; buckets = length s.heads.items } };

    ghost invariant = { λ s. AreChains s.words.items s.heads.items s.nexts.items };
}

impl WordTable {
    /// An empty table. It takes no memory.
    pub fn new(alloc: Global) -> WordTable
        ensures { result.words ≡ [] }
    {
        WordTable {
            alloc,
            words: Vec::new(alloc),
            heads: Vec::new(alloc),
            nexts: Vec::new(alloc),
        }
    }

    /// The latest word of the bucket of a key.
    #[inline(always)]
    pub fn latest(&self, key: Key) -> Option<&Word>
        ensures { IfSome result (λ word. (k : ℕ) × (slice_get self.now.words k ≡ Some word.now)) }
    {
        let bucket = home_bucket(key, self.heads.len());
        let head = link_at(self.heads.as_slice(), bucket);
        self.words.get(head.wrapping_sub(1))
    }

    /// The number of the string of a word, if the table has the word.
    pub fn find(&self, strings: &StringList, key: Key, word: &[u8]) -> Option<u32>
        requires describe { DescribeStrings strings.now self.now.words }
        requires key { key ≡ key_of word.now }
        ensures { MatchOption result (have_string strings.now self.now.words word.now ≡ false)
            (λ number. FindsString strings.now self.now.words word.now number) }
    {
        let bucket = home_bucket(key, self.heads.len());
        let mut link = link_at(self.heads.as_slice(), bucket);
        'chain: while link > 0 {
            let candidate = &self.words[link - 1];
            if candidate.is(strings, key, word) {
                return Some(candidate.number);
            }
            link = link_at(self.nexts.as_slice(), link - 1);
        }
        None
    }

    /// Whether the chain of a key takes no more words: its bucket has as many as the longest chain.
    pub fn is_full(&self, key: Key) -> bool
        ensures { result
            ≡ nat_le longest_chain (length (bucket_words key self.now.buckets self.now.words)) }
    {
        let bucket = home_bucket(key, self.heads.len());
        let mut link = link_at(self.heads.as_slice(), bucket);
        let mut count = 0;
        'chain: while link > 0 && count < LONGEST_CHAIN {
            link = link_at(self.nexts.as_slice(), link - 1);
            count += 1;
        }
        count == LONGEST_CHAIN
    }

    /// Appends a word. Returns false and changes nothing if a number does not fit, or memory is refused.
    pub fn push(&mut self, key: Key, len: usize, number: u32) -> bool
        ensures { MatchBool result (PushesWord self.old.words key len number self.new.words)
            (self.new.words ≡ self.old.words) }
    {
        let Some(word) = Word::new(key, len, number) else {
            return false;
        };
        self.grow();
        if self.heads.is_empty() || self.words.len() >= u32::MAX as usize {
            return false;
        }
        if self.words.reserve(1).is_err() || self.nexts.reserve(1).is_err() {
            return false;
        }
        link(&mut self.heads, &mut self.nexts, word.key);
        self.words.push_reserved(word);
        true
    }

    // Doubles the buckets if there are fewer than four for each word, and memory is there. Each bucket is split, so that no
    // chain gets longer.
    fn grow(&mut self)
        ensures { self.new.words ≡ self.old.words }
    {
        let buckets = self.heads.len();
        if 4 * self.words.len() < buckets {
            return;
        }
        let more = if buckets == 0 {
            FIRST_BUCKETS
        } else {
            2 * buckets
        };
        if let Ok(heads) = Vec::from_elem(self.alloc, 0, more) {
            self.heads = heads;
            link_all(self.words.as_slice(), &mut self.heads, &mut self.nexts);
        }
    }
}

// Links all words anew, by empty heads.
fn link_all(words: &[Word], heads: &mut Vec<u32>, nexts: &mut Vec<u32>)
    requires buckets { 0 < length heads.old.items }
    requires empty { AreChains [] heads.old.items [] }
    requires few { length words.now ≤ 4294967295 }
    requires room { length words.now ≤ vec_capacity nexts.old }
    ensures { AreChains words.now heads.new.items nexts.new.items }
{
    nexts.truncate(0);
    for word in words {
        link(heads, nexts, word.key);
    }
}

// Links a word with a key after all others.
fn link(heads: &mut Vec<u32>, nexts: &mut Vec<u32>, key: Key)
    requires buckets { 0 < length heads.old.items }
    requires few { length nexts.old.items < 4294967295 }
    requires room { vec_len nexts.old < vec_capacity nexts.old }
    ensures linked { (ws : List Word) (w : Word) → w.key ≡ key
        → AreChains ws heads.old.items nexts.old.items
        → AreChains (ws ++ w ∷ []) heads.new.items nexts.new.items }
    ensures buckets { length heads.new.items ≡ length heads.old.items }
    ensures room { vec_capacity nexts.new ≡ vec_capacity nexts.old }
{
    let bucket = home_bucket(key, heads.len());
    let link = nexts.len() + 1;
    nexts.push_reserved(heads[bucket]);
    heads[bucket] = link as u32;
}

// The link at an index, or 0 past the end.
#[inline(always)]
fn link_at(links: &[u32], place: usize) -> usize
    ensures { result ≡ slice_index_or links.now place 0 }
{
    match links.get(place) {
        Some(link) => *link as usize,
        None => 0,
    }
}
