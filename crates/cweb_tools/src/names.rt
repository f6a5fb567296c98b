// Names of files, of sections and of outputs.
ghost use Rattle.std.specs.Prelude.{◌≡◌, []};
ghost use Rattle.cweb_lines.specs.surface.OpenedFileNames.{opened_file_names};
ghost use Rattle.cweb_out.specs.Outputs.{name_spelling, output_name};
ghost use Rattle.cweb_tools.specs.Items.{file_name_at};

use cweb_files::FileId;
use cweb_lines::FileNames;
use cweb_store::{NameId, Store};

/// The name of an opened file. Other files have no name.
pub fn file_name(names: &FileNames, file: FileId) -> &str
    ensures { result.now ≡ file_name_at (opened_file_names names.now) file.0 }
{
    if file.0 < names.count() {
        return names.get(file);
    }
    ""
}

/// The bytes of a name, or none if the store has no such name.
pub(crate) fn name_bytes(store: &Store, name: NameId) -> &[u8]
    ensures { result.now ≡ name_spelling store.now name }
{
    if name.0 < store.names() {
        return store.name_text(name);
    }
    &[]
}

/// The bytes of an output's name. `None` is the main file.
pub(crate) fn output_name_bytes<'a>(
    store: &'a Store,
    main: &'a str,
    output: Option<NameId>,
) -> &'a [u8]
    ensures { result.now ≡ output_name store.now main.now output }
{
    match output {
        None => main.as_bytes(),
        Some(name) => name_bytes(store, name),
    }
}
