// How a merger begins: the web and the change file are opened, and nothing is read.
ghost use Rattle.std.specs.Prelude.{◌≡◌, ◌≤◌, ◌<◌, ◌+◌, ◌^◌, ◌++◌, ◌∷◌, ℕ, List, [], length, string_bytes};
ghost use Rattle.std.specs.Prelude.{IfOk, IfErr, OnOk, OnErr};
ghost use Rattle.cweb_lines.specs.surface.OpenedFileNames.{opened_file_names};
ghost use Rattle.cweb_lines.specs.inner.Finding.{found_as, lines_found, IsOpened};
ghost use Rattle.cweb_lines.specs.Include.{names_found};
ghost use Rattle.cweb_lines.specs.Lines.{lines_in};
ghost use Rattle.cweb_lines.specs.inner.Stages.{stage_for};
ghost use Rattle.cweb_lines.specs.surface.OpenSources.{lines_left, lines_at, number_or_zero, IsReaderNamed};
ghost use Rattle.cweb_lines.specs.inner.OpenSources.{line_number, files_up_to};

use crate::change::Stage;
use crate::files::find::Opening;
use crate::open_source::OpenSource;
use crate::source::Source;
use crate::{FileNames, Stop};
use cweb_files::FileId;
use std::alloc::Global;

/// Opens a file as the next one. Nothing is read.
pub fn open_source<R: Drop>(
    alloc: Global,
    names: &mut FileNames,
    opening: Opening<R>,
    depth: usize,
    may_match: bool,
) -> Result<OpenSource<R>, Stop>
    requires { length (opened_file_names names.old) + 1 < 2 ^ 32 }
    ensures names { OnOk result (opened_file_names names.new ≡ opened_file_names names.old
        ++ string_bytes opening.name ∷ []) }
    ensures same { OnErr result (opened_file_names names.new ≡ opened_file_names names.old) }
    ensures lines { IfOk result (λ text. (left : R → List ℕ) → lines_left left text
        ≡ lines_in (length (opened_file_names names.old)) (left opening.reader)) }
    ensures reader { IfOk result (λ text. text.source.reader.value ≡ opening.reader) }
    ensures level { IfOk result (λ text. (text.file.0 ≡ length (opened_file_names names.old))
        × (text.line ≡ 0) × (text.depth ≡ depth) × (text.may_match ≡ may_match)) }
    ensures memory { IfErr result (λ stop. stop ≡ Stop.Memory) }
{
    let Opening { name, reader } = opening;
    let source = Source::new(alloc, reader)?;
    let file = FileId(names.count());
    names.push(name)?;
    Ok(OpenSource {
        source,
        file,
        line: 0,
        depth,
        may_match,
    })
}

/// Opens the change file, if there is one, as file 1. Its lines match nothing.
pub fn open_change<R: Drop>(
    alloc: Global,
    names: &mut FileNames,
    change: Option<Opening<R>>,
) -> Result<Option<OpenSource<R>>, Stop>
    requires { length (opened_file_names names.old) ≡ 1 }
    ensures names { OnOk result ((left : R → List ℕ) →
        opened_file_names names.new ≡ opened_file_names names.old ++ names_found (found_as left change)) }
    ensures lines { IfOk result (λ text. (left : R → List ℕ) →
        lines_at left text ≡ lines_found (found_as left change)) }
    ensures named { IfOk result (λ text. (opened_as : R → List ℕ) → IsOpened opened_as change →
        IsReaderNamed opened_as (opened_file_names names.new) text) }
    ensures number { IfOk result (λ text. number_or_zero line_number text ≡ 0) }
    ensures file { IfOk result
        (λ text. number_or_zero files_up_to text ≤ length (opened_file_names names.new)) }
    ensures few { length (opened_file_names names.new) ≤ 2 }
    ensures stage { IfOk result (λ text. (left : R → List ℕ) →
        stage_for text ≡ stage_for (found_as left change)) }
    ensures memory { IfErr result (λ stop. stop ≡ Stop.Memory) }
{
    let Some(opening) = change else {
        return Ok(None);
    };
    Ok(Some(open_source(alloc, names, opening, 1, false)?))
}

/// If there is a change file, its first entry is sought before the first line of the web.
pub fn first_stage<R: Drop>(change: &Option<OpenSource<R>>) -> Stage
    ensures { result ≡ stage_for change.now }
{
    match change {
        Some(_) => Stage::Seeking,
        None => Stage::Done,
    }
}
