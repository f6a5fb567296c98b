// Words: a hash table of them, and a sorted map of those that the table does not take.
pub mod key;
pub mod table;
pub mod word;

ghost use Rattle.std.specs.Prelude.{◌≡◌, ◌<◌, ◌+◌, length, unwrap_or, IfOk, OnErr};
ghost use Rattle.std.specs.Map.{lookup};
ghost use Rattle.cweb_store.specs.inner.StringTables.{string_limit};
ghost use Rattle.cweb_store.specs.inner.Words.{AreMapped, InternsSorted, IsInserted, is_word};

use crate::strings::StringList;
use std::alloc::{AllocError, Global};
use std::collections::BTreeMap;

/// Interns a word that is not in the table. The word is added to the strings first, so that one search of the map is
/// enough. A refused call changes nothing.
pub fn intern_sorted(
    alloc: Global,
    strings: &mut StringList,
    sorted: &mut BTreeMap<Vec<u8>, u32>,
    word: &[u8],
) -> Result<u32, AllocError>
    requires mapped { AreMapped strings.old sorted.old.entries }
    requires few { length strings.old + 1 < string_limit }
    ensures ok { IfOk result (λ number. InternsSorted strings.old sorted.old.entries word.now number
        strings.new sorted.new.entries) }
    ensures err { OnErr result
        ((strings.new ≡ strings.old) × (sorted.new.entries ≡ sorted.old.entries)) }
{
    let next = strings.add_word(word)?;
    match number_in(alloc, sorted, word, next as u32) {
        Ok(number) => {
            if number != next as u32 {
                strings.truncate(next);
            }
            Ok(number)
        }
        Err(refusal) => {
            strings.truncate(next);
            Err(refusal)
        }
    }
}

// The number of a word in the map. A new word gets the number `next`. A refused call changes nothing.
fn number_in(
    alloc: Global,
    sorted: &mut BTreeMap<Vec<u8>, u32>,
    word: &[u8],
    next: u32,
) -> Result<u32, AllocError>
    ensures number { IfOk result (λ number. number
        ≡ unwrap_or (lookup (is_word word.now) sorted.old.entries) next) }
    ensures inserted { IfOk result (λ number.
        IsInserted sorted.old.entries word.now number sorted.new.entries) }
    ensures err { OnErr result (sorted.new.entries ≡ sorted.old.entries) }
{
    let key = Vec::from_slice(alloc, word)?;
    let number = *sorted.entry(key)?.or_insert(next);
    Ok(number)
}
