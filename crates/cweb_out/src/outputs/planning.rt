// Makes the plan of a store.
ghost use Rattle.std.specs.Prelude.{◌≡◌, ◌<◌, All, find, length, bytes_eq, OnOk, ◌++◌, ◌∷◌, []};
ghost use Rattle.std.specs.List.{list_any};
ghost use Rattle.std.specs.Result.{result_map_both};
ghost use Rattle.cweb_store.specs.Names as spec;
ghost use Rattle.cweb_store.specs.Parts as parts;
ghost use Rattle.cweb_out.specs.inner.Planning.{IsRoot, NamesAll, NamesOne};
ghost use Rattle.cweb_out.specs.Outputs.{has_no_program, name_spelling, output_name, outputs, planned};
ghost use Rattle.cweb_out.specs.surface.Outputs.{IsExpectedPlan};

use crate::outputs::fault::PlanFault;
use crate::outputs::file_name::is_good_path;
use crate::outputs::output_list::roots;
use crate::outputs::planned::{Output, Plan};
use crate::outputs::search::first_cycle;
use cweb_store::{NameId, Store};
use std::alloc::{AllocError, Global};

/// The plan of a store, or why there is none. Faults come in this order: names that no file can have, by order of the
/// outputs; a file name equal to the main file's; a cycle that an output reaches. `Memory` may come at any point.
pub fn plan(alloc: Global, store: &Store, main: &str) -> Result<Plan, PlanFault>
    ensures { IsExpectedPlan (planned store.now main.now) result }
{
    let roots = roots(alloc, store)?;
    let outputs = outputs(alloc, store, main, roots.as_slice())?;
    if let Some(name) = first_same(store, main) {
        return Err(PlanFault::SameName(name));
    }
    if let Some(names) = first_cycle(alloc, store, roots.as_slice())? {
        return Err(PlanFault::Cycle(names));
    }
    let no_text = has_no_program(store, outputs.as_slice());
    Ok(Plan { outputs, no_text })
}

fn has_unnamed(store: &Store) -> bool
    ensures { result ≡ list_any (λ (p : parts.Part). parts.is_unnamed p.kind) store.now.parts }
{
    store.unnamed().next().is_some()
}

fn has_no_program(store: &Store, planned: &[Output]) -> bool
    requires { length planned.now ≡ length (outputs store.now) }
    ensures { result ≡ has_no_program store.now }
{
    if has_unnamed(store) {
        return false;
    }
    planned.len() == 1
}

fn name_bytes<'a>(store: &'a Store, main: &'a str, root: Option<NameId>) -> &'a [u8]
    requires { IsRoot store.now root }
    ensures { result.now ≡ output_name store.now main.now root }
{
    match root {
        None => main.as_bytes(),
        Some(name) => store.name_text(name),
    }
}

fn is_main(store: &Store, main: &str, name: NameId) -> bool
    requires { name.0 < length (spec.names store.now.occurrences) }
    ensures { result ≡ bytes_eq (name_spelling store.now name) main.now }
{
    name_bytes(store, main, Some(name)) == main.as_bytes()
}

// The first file name that equals the main file's.
fn first_same(store: &Store, main: &str) -> Option<NameId>
    ensures { result
        ≡ find (λ n. bytes_eq (name_spelling store.now n) main.now)
        (spec.files store.now.occurrences) }
{
    'files: for name in store.files() {
        if is_main(store, main, *name) {
            return Some(*name);
        }
    }
    None
}

fn output(
    alloc: Global,
    store: &Store,
    main: &str,
    root: Option<NameId>,
) -> Result<Output, PlanFault>
    requires { IsRoot store.now root }
    ensures { NamesOne store.now main.now root result }
{
    let bytes = name_bytes(store, main, root);
    let Ok(name) = str::from_utf8(bytes) else {
        return Err(PlanFault::BadName(root));
    };
    if !is_good_path(bytes) {
        return Err(PlanFault::BadName(root));
    }
    Ok(Output {
        name: String::from_str(alloc, name)?,
        root,
    })
}

fn add(outputs: &mut Vec<Output>, output: Output) -> Result<(), AllocError>
    ensures { OnOk result (outputs.new.items ≡ outputs.old.items ++ output ∷ []) }
{
    outputs.push(output)?;
    Ok(())
}

fn outputs(
    alloc: Global,
    store: &Store,
    main: &str,
    roots: &[Option<NameId>],
) -> Result<Vec<Output>, PlanFault>
    requires { All (IsRoot store.now) roots.now }
    ensures { NamesAll store.now main.now roots.now
        (result_map_both (λ outputs. outputs.items) (λ fault. fault) result) }
{
    let mut outputs = Vec::new(alloc);
    'roots: for root in roots {
        add(&mut outputs, output(alloc, store, main, *root)?)?;
    }
    Ok(outputs)
}
