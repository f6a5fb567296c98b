// The names that begin with a prefix, in a sorted map.
ghost use Rattle.std.specs.Prelude.{◌≡◌};
ghost use Rattle.std.specs.BTreeMap.{keys};
ghost use Rattle.std.specs.List.Sorted.{IsStrictlySortedBy};
ghost use Rattle.cweb_store.specs.inner.Known.{any_next, found_of, ids_with_prefix, compare_bytes};

use crate::name::{NameId, NameKind};
use crate::sorted::SortKey;
use std::collections::BTreeMap;

/// The names that fit: none, one or several.
#[derive(Clone, Copy)]
pub enum Found {
    Nothing,
    One(NameId),
    Several,
}

impl Found {
    ghost use Rattle.cweb_store.specs.inner.Known.{by_found, is_several};

    /// What an occurrence resolves to that fits these names.
    pub fn resolution(self) -> Result<NameId, NameKind>
        ensures { result ≡ by_found self }
    {
        match self {
            Found::Nothing => Err(NameKind::NeverFull),
            Found::One(id) => Ok(id),
            Found::Several => Err(NameKind::Ambiguous),
        }
    }

    /// Whether several names fit.
    pub fn is_several(self) -> bool
        ensures { result ≡ is_several self }
    {
        match self {
            Found::Several => true,
            _ => false,
        }
    }
}

/// The names that begin with a prefix. They are adjacent in the map, so two entries decide.
pub fn find_one<'a>(sorted: &BTreeMap<SortKey<'a>, NameId>, prefix: &'a [u8]) -> Found
    ensures { result ≡ found_of (ids_with_prefix prefix.now sorted.now.entries) }
{
    let mut range = sorted.range(SortKey::new(prefix)..);
    let Some((first, id)) = range.next() else {
        return Found::Nothing;
    };
    if !first.spelling().starts_with(prefix) {
        return Found::Nothing;
    }
    let Some((second, _)) = range.next() else {
        return Found::One(*id);
    };
    if second.spelling().starts_with(prefix) {
        Found::Several
    } else {
        Found::One(*id)
    }
}

/// Whether any spelling in the map has its predecessor as a prefix.
pub fn has_prefix(sorted: &BTreeMap<SortKey<'_>, NameId>) -> bool
    ensures value { result ≡ any_next (keys sorted.now) }
    ensures ordered { IsStrictlySortedBy compare_bytes (keys sorted.now) }
{
    let mut strings = sorted.keys();
    let Some(mut before) = strings.next() else {
        return false;
    };
    'strings: while let Some(spelling) = strings.next() {
        if spelling.spelling().starts_with(before.spelling()) {
            return true;
        }
        before = spelling;
    }
    false
}
