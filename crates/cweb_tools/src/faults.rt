// The lines of the faults of a web: of its files, its text, its names and its outputs. No function here allocates.
ghost use Rattle.std.specs.Prelude.{◌≡◌, ◌<◌, ◌∷◌, [], length};
ghost use Rattle.cweb_lines.specs.surface.OpenedFileNames.{opened_file_names};
ghost use Rattle.cweb_tools.specs.Items.{line, name_item, scan_item, scan_message, source_item, kind_message};
ghost use Rattle.cweb_tools.specs.inner.LogText.{items_of, joined_parts, plan_item};

use crate::chunks::{Chunk, counted_chunk, fault_chunk, located_chunk};
use crate::log_text::{LogLine, LogText};
use crate::names::{file_name, name_bytes, output_name_bytes};
use cweb_lines::{FileNames, SourceFault, SourceKind, Stop};
use cweb_out::PlanFault;
use cweb_rules::{ScanFault, ScanKind};
use cweb_store::{NameFault, NameKind, Store};

pub(crate) fn source_fault_chunk<'a>(names: &'a FileNames, fault: SourceFault) -> Chunk<'a>
    ensures { joined_parts result ≡ line (source_item (opened_file_names names.now) fault) }
{
    let file = file_name(names, fault.place.file);
    let text = kind_message(fault.kind);
    if let SourceKind::Unequal = fault.kind {
        return counted_chunk(file, fault.place.line, text, fault.count);
    }
    located_chunk(file, fault.place.line, text)
}

fn kind_message(kind: SourceKind) -> &'static str
    ensures { result.now ≡ kind_message kind }
{
    match kind {
        SourceKind::NoName => "Include file name not given",
        SourceKind::TooDeep => "Too many nested includes",
        SourceKind::NotThere => "Cannot open include file",
        SourceKind::MissingX => "Missing @x in change file",
        SourceKind::NoOldLines => "No old lines after @x",
        SourceKind::EndedBeforeY => "Change file ended before @y",
        SourceKind::WebEnded => "Web ended during a change",
        SourceKind::WantsY => "Where is @y?",
        SourceKind::Unequal => "Lines that failed to match",
        SourceKind::WantsZ => "Where is @z?",
        SourceKind::EndedBeforeZ => "Change file ended before @z",
        SourceKind::NoMatch => "Change entry did not match",
    }
}

pub(crate) fn scan_fault_chunk<'a>(names: &'a FileNames, fault: ScanFault) -> Chunk<'a>
    ensures { joined_parts result ≡ line (scan_item (opened_file_names names.now) fault) }
{
    let file = file_name(names, fault.place.file);
    located_chunk(file, fault.place.line, scan_message(fault.kind))
}

fn scan_message(kind: ScanKind) -> &'static str
    ensures { result.now ≡ scan_message kind }
{
    match kind {
        ScanKind::DoubleAtInLimbo => "Double @ in limbo",
        ScanKind::ImproperHexNumber => "Improper hex number after @l",
        ScanKind::ReplacementTooLong => "Replacement after @l too long",
        ScanKind::LetterOutsideLimbo => "Use @l in limbo only",
        ScanKind::NameDidNotEnd => "Section name did not end",
        ScanKind::NamesDoNotNest => "Section names do not nest",
        ScanKind::CommentDidNotEnd => "Comment did not end",
        ScanKind::StringDidNotEnd => "String did not end",
        ScanKind::DoubleAtInString => "Double @ in strings",
        ScanKind::ControlTextDidNotEnd => "Control text did not end",
        ScanKind::FaultyConstant => "Faulty ASCII constant",
        ScanKind::IgnoredInCText => "@d, @f, @s, @c and @p are ignored in C text",
        ScanKind::MissingAt => "Missing @ before a named section",
        ScanKind::DefsInMacro => "@h is ignored in a macro",
        ScanKind::DefinitionDropped => "Definition dropped, no identifier",
    }
}

/// A name is printed between angle brackets, an abbreviation with its three dots.
pub(crate) fn name_fault_chunk(store: &Store, fault: NameFault) -> Chunk<'_>
    requires { fault.occurrence.0 < length store.now.occurrences }
    ensures { joined_parts result ≡ line (name_item store.now.occurrences fault) }
{
    let name = store.occurrence_text(fault.occurrence);
    match fault.kind {
        NameKind::Ambiguous => fault_chunk("Ambiguous prefix: <", name, "...>"),
        NameKind::NeverFull => fault_chunk("Never given in full: <", name, "...>"),
        NameKind::PrefixOfAnother => fault_chunk("Name is a prefix of another: <", name, ">"),
        NameKind::NotPresent => fault_chunk("Not present: <", name, ">"),
    }
}

impl<'a> LogText<'a> {
    /// The line of the fault for which a web has no plan, for a main file of this name. `Memory` has the line of the
    /// stop.
    pub fn unplanned(store: &'a Store, fault: &'a PlanFault, main: &'a str) -> LogText<'a>
        ensures { items_of result ≡ plan_item store.now main.now fault.now ∷ [] }
    {
        match fault {
            PlanFault::Cycle(names) => LogText::Cycle(store, names.as_slice()),
            PlanFault::SameName(name) => LogText::Line(LogLine::Refused(
                "Two outputs with one name: <",
                name_bytes(store, *name),
            )),
            PlanFault::BadName(output) => LogText::Line(LogLine::Refused(
                "Bad output name: <",
                output_name_bytes(store, main, *output),
            )),
            PlanFault::Memory => LogText::Line(LogLine::Stopped(Stop::Memory, "")),
        }
    }
}
