// How the web, the change file and included files are found.
ghost use Rattle.std.specs.Prelude.{◌≡◌, ◌∷◌, ◌++◌, IfOk, IfSome, string_bytes, option_map, option_and_then};
ghost use Rattle.std.specs.Option.{option_copied, option_or};
ghost use Rattle.cweb_lines.specs.Include.{found_at, found_under, change_at};
ghost use Rattle.cweb_files.specs.Shelves.{Observed};
ghost use Rattle.cweb_lines.specs.inner.Finding.{found_as, FindsFile, IsOpened};
ghost use Rattle.cweb_lines.specs.surface.OpenedFileNames.{optional_string_bytes, world_in};

use cweb_files::Shelf;
use std::alloc::{AllocError, Global};

/// A reader at the first byte of a file, and the name under which it was found.
#[derive(Drop)]
pub struct Opening<R: Drop> {
    pub name: String,
    pub reader: R,
}

fn fetch_named<S: Shelf>(shelf: &mut S, name: String) -> Result<Option<Opening<S::R>>, AllocError>
    ensures { FindsFile (S.model shelf.old) (S.model shelf.new)
        (λ seen. found_under seen.texts (string_bytes name)) result }
{
    match shelf.fetch(name.as_str())? {
        Some(reader) => Ok(Some(Opening { name, reader })),
        None => Ok(None),
    }
}

/// Finds a file under the first name, else under the second one.
pub fn fetch_either<S: Shelf>(
    shelf: &mut S,
    first: String,
    second: Option<String>,
) -> Result<Option<Opening<S::R>>, AllocError>
    ensures { FindsFile (S.model shelf.old) (S.model shelf.new)
        (λ seen. option_or (found_under seen.texts (string_bytes first))
        (option_and_then (found_under seen.texts) (optional_string_bytes second))) result }
{
    let Some(opening) = fetch_named(shelf, first)? else {
        let Some(second) = second else {
            return Ok(None);
        };
        return fetch_named(shelf, second);
    };
    Ok(Some(opening))
}

// The path of a name in the folder `inputs`, if there is one.
fn in_folder(
    alloc: Global,
    inputs: &Option<String>,
    name: &str,
) -> Result<Option<String>, AllocError>
    ensures { IfOk result (λ path. optional_string_bytes path
        ≡ option_map (λ folder. folder ++ 47 ∷ name.now) (optional_string_bytes inputs.now)) }
{
    let Some(folder) = inputs else {
        return Ok(None);
    };
    let mut path = String::from_str(alloc, folder.as_str())?;
    path.push_str("/")?;
    path.push_str(name)?;
    Ok(Some(path))
}

/// Finds the file of an include line: under its name, else in the folder `inputs`. A name that isn't UTF-8 finds none.
pub fn find<S: Shelf>(
    alloc: Global,
    shelf: &mut S,
    inputs: &Option<String>,
    name: &[u8],
) -> Result<Option<Opening<S::R>>, AllocError>
    ensures { FindsFile (S.model shelf.old) (S.model shelf.new)
        (λ seen. found_at (world_in seen.texts inputs.now) name.now) result }
{
    let Ok(name) = str::from_utf8(name) else {
        return Ok(None);
    };
    let second = in_folder(alloc, inputs, name)?;
    fetch_either(shelf, String::from_str(alloc, name)?, second)
}

/// A copy of a name, if there is one.
pub fn owned(alloc: Global, name: Option<&str>) -> Result<Option<String>, AllocError>
    ensures { IfOk result (λ owned. optional_string_bytes owned ≡ option_copied name.entry) }
{
    match name {
        Some(name) => Ok(Some(String::from_str(alloc, name)?)),
        None => Ok(None),
    }
}

/// Finds the change file. `Some(None)` means that none is named, and `None` that the named file isn't there.
pub fn find_change<S: Shelf>(
    alloc: Global,
    shelf: &mut S,
    change: Option<&str>,
) -> Result<Option<Option<Opening<S::R>>>, AllocError>
    ensures same { S.model shelf.new ≡ S.model shelf.old }
    ensures opened { Observed (S.model shelf.old) (λ seen.
        IfOk result (λ found. IfSome found (IsOpened seen.opened_as))) }
    ensures found { Observed (S.model shelf.old) (λ seen.
        IfOk result (λ found. option_map (found_as seen.left) found
        ≡ change_at seen.texts (option_copied change.entry))) }
{
    let Some(name) = change else {
        return Ok(Some(None));
    };
    let opening = fetch_named(shelf, String::from_str(alloc, name)?)?;
    Ok(opening.map(|opening| Some(opening)))
}
