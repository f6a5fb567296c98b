// A word of the hash table.
ghost use Rattle.std.specs.Prelude.{◌≡◌, ◌↔◌, true, List, ℕ, bytes_eq, length, IfSome, IsTrue};
ghost use Rattle.cweb_store.specs.inner.Words.{AreBytes, key_of, DescribesString, word_string};

use crate::strings::StringList;
use crate::words::key::{KEY_BYTES, Key};

/// A word: the key, the length and the number of its string.
#[derive(Clone, Copy)]
pub struct Word {
    pub key: Key,
    pub len: u32,
    pub number: u32,
}

impl Word {
    /// Returns `None` if the length does not fit 32 bits.
    pub fn new(key: Key, len: usize, number: u32) -> Option<Word>
        ensures { IfSome result (λ word.
            (word.key ≡ key) × (word.len ≡ len) × (word.number ≡ number)) }
    {
        if len > u32::MAX as usize {
            return None;
        }
        Some(Word {
            key,
            len: len as u32,
            number,
        })
    }

    /// Whether this word is the string with a key. For a short string no other string is read.
    #[inline(always)]
    pub fn is(&self, strings: &StringList, key: Key, string: &[u8]) -> bool
        requires describes { DescribesString strings.now self.now }
        requires key { key ≡ key_of string.now }
        ensures { result ≡ bytes_eq string.now (word_string strings.now self.now) }
    {
        if !self.has_key(key, string) {
            return false;
        }
        string.len() <= KEY_BYTES || string == strings.string(self.number as usize)
    }

    /// Whether this word is a short string with a key. It reads no other string and calls nothing.
    #[inline(always)]
    pub fn is_short(&self, key: Key, string: &[u8]) -> bool
        requires { key ≡ key_of string.now }
        ensures { result ≡ true → (strings : List (List ℕ)) → DescribesString strings self.now
            → bytes_eq string.now (word_string strings self.now) ≡ true }
    {
        string.len() <= KEY_BYTES && self.has_key(key, string)
    }

    // Whether the key and the length are those of a string.
    fn has_key(&self, key: Key, string: &[u8]) -> bool
        ensures is { IsTrue result ↔ (self.now.len ≡ length string.now) × (self.now.key ≡ key) }
        ensures bytes { AreBytes string.now }
    {
        let len = string.len();
        self.len as usize == len && self.key.first == key.first && self.key.last == key.last
    }
}
