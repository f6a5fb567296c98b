// The list of outputs.
ghost use Rattle.std.specs.Prelude.{◌≡◌, ◌<◌, ◌^◌, length, All, IfOk};
ghost use Rattle.cweb_store.specs.Names as spec;
ghost use Rattle.cweb_store.specs.Faults.{has_part};
ghost use Rattle.cweb_out.specs.inner.Planning.{IsRoot};
ghost use Rattle.cweb_out.specs.Outputs.{outputs};

use cweb_store::{NameId, Store};
use std::alloc::{AllocError, Global};

fn has_part(store: &Store, name: NameId) -> bool
    ensures { result ≡ has_part (spec.resolutions store.now.occurrences) store.now.parts name }
{
    store.parts(name).next().is_some()
}

/// The outputs: the main file as `None`, then the file names that have a part.
pub(crate) fn roots(alloc: Global, store: &Store) -> Result<Vec<Option<NameId>>, AllocError>
    ensures roots { IfOk result (λ roots. roots.items ≡ outputs store.now) }
    ensures within { IfOk result (λ roots. All (IsRoot store.now) roots.items) }
    ensures few { IfOk result (λ roots. length roots.items < 2 ^ 32) }
{
    let _names = store.names();
    let mut roots = Vec::new(alloc);
    roots.push(None)?;
    'files: for name in store.files() {
        if has_part(store, *name) {
            roots.push(Some(*name))?;
        }
    }
    Ok(roots)
}
