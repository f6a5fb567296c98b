// The faults of names: unresolved, prefixes of others, and names without a part.
ghost use Rattle.std.specs.Prelude.{◌≡◌, ◌<◌, ◌^◌, ◌++◌, ◌&&◌, ◌||◌, not, [], List, length, map};
ghost use Rattle.std.specs.Prelude.{IfOk, OnOk, ◌∷◌, if◌then◌else◌};
ghost use Rattle.std.specs.List.{list_any};
ghost use Rattle.cweb_store.specs.declared.name.NameKind.TheVariants.{PrefixOfAnother, NotPresent};
ghost use Rattle.cweb_store.specs.Names.{is_id, is_prefix_of_another};
ghost use Rattle.cweb_store.specs.Names as spec;
ghost use Rattle.cweb_store.specs.Faults.{fault_of_name, faults_where, unresolved_faults};
ghost use Rattle.cweb_store.specs.Faults as fault_specs;
ghost use Rattle.cweb_store.specs.declared.name.NameId.{NameId};
ghost use Rattle.cweb_store.specs.inner.Stored.{has_head, AreWithin, flag_of};

use crate::known::KnownNames;
use crate::name::{NameFault, NameId, NameKind, NameRef};
use crate::occurrences::Occurrences;
use crate::parts::closed::ClosedParts;
use crate::parts::iter::Wanted;
use crate::parts::links::Heads;
use indexmap::IndexSet;
use std::alloc::{AllocError, Global};

/// All faults of names, in the order of their reports, and for each name the number of its first full occurrence.
pub fn name_faults(
    alloc: Global,
    occurrences: &Occurrences,
    parts: &ClosedParts,
    names: KnownNames<'_>,
    resolutions: &[Result<NameId, NameKind>],
    files: &IndexSet<NameId>,
    heads: &Heads,
) -> Result<(Vec<NameFault>, Vec<u32>), AllocError>
    requires named { names.names ≡ spec.names occurrences.now }
    requires few_names { length names.names < 2 ^ 32 }
    requires settled { resolutions.now ≡ spec.resolutions occurrences.now }
    requires files { files.now.keys ≡ spec.files occurrences.now }
    requires few { length resolutions.now < 2 ^ 32 }
    requires known { AreWithin resolutions.now (length (spec.names occurrences.now)) }
    requires some { (n : NameId) → has_head heads.now n
        ≡ fault_specs.has_part resolutions.now parts.now n }
    ensures found { IfOk result (λ all. all.0.items ≡ fault_specs.faults occurrences.now parts.now) }
    ensures firsts { IfOk result (λ all. all.1.items ≡ map (λ n. n.first) (spec.names occurrences.now)) }
{
    let mut faults = Vec::new(alloc);
    add_unresolved_faults(&mut faults, resolutions)?;
    add_prefix_faults(&mut faults, &names)?;
    let firsts = names.close();
    let used = parts.uses(alloc, resolutions, firsts.len())?;
    add_missing_faults(&mut faults, firsts.as_slice(), &used, files, heads)?;
    Ok((faults, firsts))
}

// Adds a fault for each occurrence that resolves to no name.
fn add_unresolved_faults(
    faults: &mut Vec<NameFault>,
    resolutions: &[Result<NameId, NameKind>],
) -> Result<(), AllocError>
    requires { length resolutions.now < 2 ^ 32 }
    ensures { OnOk result (faults.new.items ≡ faults.old.items
        ++ unresolved_faults resolutions.now) }
{
    for (i, standing) in resolutions.iter().enumerate() {
        if let Err(kind) = standing {
            faults.push(NameFault {
                kind: *kind,
                occurrence: NameRef(i as u32),
            })?;
        }
    }
    Ok(())
}

fn add_prefix_faults(faults: &mut Vec<NameFault>, names: &KnownNames<'_>) -> Result<(), AllocError>
    requires { length names.now.names < 2 ^ 32 }
    ensures { OnOk result
        (faults.new.items
        ≡ faults.old.items
        ++ faults_where PrefixOfAnother
        (λ n text. is_prefix_of_another names.now.names text) names.now.names) }
{
    if !names.has_prefix() {
        return Ok(());
    }
    for number in 0..names.len() as u32 {
        let id = NameId(number);
        let fails = names.is_prefix(id);
        add_fault_if(fails, faults, names.first(id), NameKind::PrefixOfAnother)?;
    }
    Ok(())
}

// Adds a fault for each name that is used, or is a file's, and has no part.
fn add_missing_faults(
    faults: &mut Vec<NameFault>,
    firsts: &[u32],
    used: &[bool],
    files: &IndexSet<NameId>,
    heads: &Heads,
) -> Result<(), AllocError>
    requires { length firsts.now < 2 ^ 32 }
    ensures { (names : List spec.Name) → firsts.now ≡ map (λ n. n.first) names → OnOk result
        (faults.new.items
        ≡ faults.old.items
        ++ faults_where NotPresent
        (λ n text.
        (flag_of used.now n || list_any (is_id n) files.now.keys)
        && not (has_head heads.now n))
        names) }
{
    for (number, first) in firsts.iter().enumerate() {
        let fails = is_missing(NameId(number as u32), used, files, heads);
        add_fault_if(fails, faults, *first, NameKind::NotPresent)?;
    }
    Ok(())
}

fn is_missing(id: NameId, used: &[bool], files: &IndexSet<NameId>, heads: &Heads) -> bool
    ensures { result
        ≡ ((flag_of used.now id || list_any (is_id id) files.now.keys)
        && not (has_head heads.now id)) }
{
    let is_used = used.get(id.0 as usize) == Some(&true);
    (is_used || files.contains(&id)) && heads.get(Wanted::OfName(id)) == 0
}

// Adds a fault of a name at its first full occurrence, if `fails`.
fn add_fault_if(
    fails: bool,
    faults: &mut Vec<NameFault>,
    first: u32,
    kind: NameKind,
) -> Result<(), AllocError>
    ensures { OnOk result
        (faults.new.items ≡ faults.old.items
        ++ (if fails then fault_of_name kind first ∷ [] else [])) }
{
    if fails {
        let occurrence = NameRef(first);
        faults.push(NameFault { kind, occurrence })?;
    }
    Ok(())
}
