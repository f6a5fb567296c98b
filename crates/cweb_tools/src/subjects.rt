// What all runs share: the folder of included files, and the names that the lines of stops end in.
ghost use Rattle.std.specs.Prelude.{◌≡◌};
ghost use Rattle.std.specs.Option.{option_copied};
ghost use Rattle.cweb_lines.specs.surface.OpenedFileNames as spec;
ghost use Rattle.cweb_tools.specs.inner.LogText.{start_subject, subject};
ghost use Rattle.cweb_tools.specs.MergeActs.{change_name, folder_of};

use crate::names::file_name;
use cweb_lines::{FileNames, Stop};

/// The folder in which included files are also searched. An empty one counts as none.
pub(crate) fn folder(inputs: Option<&str>) -> Option<&str>
    ensures { option_copied result ≡ folder_of (option_copied inputs.entry) }
{
    match inputs {
        Some(folder) if folder.is_empty() => None,
        inputs => inputs,
    }
}

/// The name that the line of a stop at the start of a merge ends in.
pub(crate) fn start_subject<'a>(web: &'a str, change: Option<&'a str>, stop: Stop) -> &'a str
    ensures { result.now ≡ start_subject web.now (change_name (option_copied change.entry)) stop }
{
    match stop {
        Stop::WebNotOpened => web,
        Stop::ChangeNotOpened => change.unwrap_or(""),
        _ => "",
    }
}

/// The name that the line of a stop within a merge ends in.
pub(crate) fn subject(names: &FileNames, stop: Stop) -> &str
    ensures { result.now ≡ subject (spec.opened_file_names names.now) stop }
{
    match stop {
        Stop::ReadFault(file) | Stop::LineTooLong(file) => file_name(names, file),
        Stop::WriteFault => "standard output",
        _ => "",
    }
}
