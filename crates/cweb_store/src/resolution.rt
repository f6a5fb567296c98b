// The names that occurrences resolve to.
ghost use Rattle.std.specs.Prelude.{◌≡◌, ◌<◌, ◌^◌, Err, List, ℕ, false, length, true};
ghost use Rattle.cweb_store.specs.Names.{Name, resolved_at};
ghost use Rattle.cweb_store.specs.inner.Known.{resolve, resolve_all};

use crate::known::KnownNames;
use crate::name::{NameId, NameKind};

/// What occurrences resolve to, in order: each one to a name or to its fault.
pub type Resolutions = Vec<Result<NameId, NameKind>>;

/// The name that an occurrence resolves to, if there is one.
pub fn resolved_at(resolutions: &[Result<NameId, NameKind>], occurrence: usize) -> Option<NameId>
    ensures { result ≡ resolved_at resolutions.now occurrence }
{
    match resolutions.get(occurrence) {
        Some(Ok(id)) => Some(*id),
        _ => None,
    }
}

/// Resolves the abbreviations that no name before them fits, among all names.
pub fn resolve_all(names: &KnownNames<'_>, all: &mut Resolutions)
    requires count { length names.now.strings ≡ length all.old.items }
    requires few { length all.old.items < 2 ^ 32 }
    ensures { all.new.items ≡ resolve_all names.now.names names.now.strings all.old.items }
{
    for i in 0..all.len() {
        if is_open(all[i]) {
            all[i] = names.find(i as u32).resolution();
        }
    }
}

// Whether an occurrence resolves to no name before it. Any other resolution stays.
fn is_open(early: Result<NameId, NameKind>) -> bool
    ensures never { result ≡ true → early ≡ Err NameKind.NeverFull }
    ensures stays { result ≡ false → (all : List Name) (text : List ℕ) → resolve all text early ≡ early }
{
    matches!(early, Err(NameKind::NeverFull))
}
