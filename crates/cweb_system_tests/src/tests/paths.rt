// The paths of the comparison, in a real folder and in memory.
use super::both::PathPair;
use super::universe::{
    BELOW_FILES, ENTRIES, FOLDER_LINK, FREE, IN_LOCKED, LOOP, MISSING, SPELLINGS,
};
use std::alloc::{AllocError, Global};

/// The path of a name in a folder.
pub fn path_in(alloc: Global, top: &str, name: &str) -> Result<String, AllocError> {
    [top, "/", name].concat(alloc)
}

/// A path on both sides.
fn path_pair(alloc: Global, top: &str, name: &str) -> Result<PathPair, AllocError> {
    Ok(PathPair {
        real: path_in(alloc, top, name)?,
        memory: String::from_str(alloc, name)?,
        is_fixed: name == FOLDER_LINK || name == LOOP,
        is_below_file: BELOW_FILES.contains(&name),
    })
}

fn add_paths(
    alloc: Global,
    paths: &mut Vec<PathPair>,
    top: &str,
    names: &[&str],
) -> Result<(), AllocError> {
    for name in names {
        paths.push(path_pair(alloc, top, name)?)?;
    }
    Ok(())
}

fn add_entries(alloc: Global, paths: &mut Vec<PathPair>, top: &str) -> Result<(), AllocError> {
    for (name, _) in ENTRIES {
        paths.push(path_pair(alloc, top, name)?)?;
    }
    Ok(())
}

fn add_spellings(alloc: Global, paths: &mut Vec<PathPair>, top: &str) -> Result<(), AllocError> {
    for (name, _) in SPELLINGS {
        paths.push(path_pair(alloc, top, name)?)?;
    }
    Ok(())
}

/// All paths of the comparison.
pub fn all_paths(alloc: Global, top: &str) -> Result<Vec<PathPair>, AllocError> {
    let mut paths = Vec::new(alloc);
    add_entries(alloc, &mut paths, top)?;
    add_spellings(alloc, &mut paths, top)?;
    for names in [MISSING, BELOW_FILES, IN_LOCKED, FREE] {
        add_paths(alloc, &mut paths, top, names)?;
    }
    Ok(paths)
}
