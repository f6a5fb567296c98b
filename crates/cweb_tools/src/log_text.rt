// What the programs log, as chunks. No function here allocates.
ghost use Rattle.std.specs.Prelude.{◌≡◌, ◌≤◌, ◌<◌, ◌+◌, ◌∷◌, ◌++◌, [], codes, length, map, slice_index_or};
ghost use Rattle.cweb_tools.specs.Items.{closing, counts, cycle_step, line, star};
ghost use Rattle.cweb_tools.specs.inner.LogText.{joined_parts};

use crate::chunks::{Chunk, NOTHING, Part, between, fault_chunk};
use crate::faults::{name_fault_chunk, scan_fault_chunk, source_fault_chunk};
use crate::names::name_bytes;
use crate::stops::stop_chunk;
use cweb_lines::{FileNames, SourceFault, Stop};
use cweb_rules::ScanFault;
use cweb_store::{NameId, Store};

/// A line of the log that consists of one chunk.
#[derive(Clone, Copy)]
pub enum LogLine<'a> {
    /// The name and version of `ctangle`.
    Banner,
    NoProgramText,
    /// An output of this name is begun.
    Writing(&'a str),
    /// The numbers of sections, names and macros of a web.
    Counts(u32, u32, u32),
    /// The closing line, from the number of faults, and whether program text is missing, which is a warning.
    Closing(u128, bool),
    /// The outputs of a web are refused: the message, and the name that ends it.
    Refused(&'a str, &'a [u8]),
    /// What stopped a run, and the name that ends the line. A log that failed gets no line.
    Stopped(Stop, &'a str),
}

/// A text for the log: a line, or a line for each fault of a list, in order.
#[derive(Clone, Copy)]
pub enum LogText<'a> {
    Line(LogLine<'a>),
    /// A star and the number of each section on one line.
    Starred(&'a [u32]),
    /// The names that use each other without end on one line.
    Cycle(&'a Store, &'a [NameId]),
    SourceFaults(&'a FileNames, &'a [SourceFault]),
    ScanFaults(&'a FileNames, &'a [ScanFault]),
    /// The faults of a web's names.
    NameFaults(&'a Store),
}

impl<'a> LogLine<'a> {
    ghost use Rattle.cweb_tools.specs.inner.LogText.{item_of};

    pub(crate) fn chunk(self) -> Chunk<'a>
        ensures { joined_parts result ≡ line (item_of self.entry) }
    {
        match self {
            LogLine::Banner => between("This is CTANGLE, profile of CWEB 3\n", NOTHING, ""),
            LogLine::NoProgramText => between("! No program text\n", NOTHING, ""),
            LogLine::Writing(name) => between("Writing ", Part::Text(name.as_bytes()), "\n"),
            LogLine::Counts(sections, names, macros) => counts_chunk(sections, names, macros),
            LogLine::Closing(count, missing) => closing_chunk(count, missing),
            LogLine::Refused(text, name) => fault_chunk(text, name, ">"),
            LogLine::Stopped(stop, name) => stop_chunk(stop, name),
        }
    }
}

impl<'a> LogText<'a> {
    ghost use Rattle.cweb_tools.specs.inner.LogText.{chunks_of};

    /// The number of chunks.
    pub(crate) fn chunks(self) -> usize
        ensures { result ≡ length (chunks_of self.entry) }
    {
        match self {
            LogText::Line(_) => 1,
            LogText::Starred(numbers) => numbers.len() + 1,
            LogText::Cycle(_, names) => names.len() + 2,
            LogText::SourceFaults(_, faults) => faults.len(),
            LogText::ScanFaults(_, faults) => faults.len(),
            LogText::NameFaults(store) => store.name_faults().len(),
        }
    }

    /// The chunk at an index.
    pub(crate) fn chunk(self, index: usize) -> Chunk<'a>
        requires { index < length (chunks_of self) }
        ensures { joined_parts result ≡ slice_index_or (chunks_of self.entry) index [] }
    {
        match self {
            LogText::Line(line) => line.chunk(),
            LogText::Starred(numbers) => star_chunk(numbers, index),
            LogText::Cycle(store, names) => cycle_chunk(store, names, index),
            LogText::SourceFaults(names, faults) => source_fault_chunk(names, faults[index]),
            LogText::ScanFaults(names, faults) => scan_fault_chunk(names, faults[index]),
            LogText::NameFaults(store) => name_fault_chunk(store, store.name_faults()[index]),
        }
    }
}

fn counts_chunk<'a>(sections: u32, names: u32, macros: u32) -> Chunk<'a>
    ensures { joined_parts result ≡ line (counts sections names macros) }
{
    [
        Part::Text(b"Sections: "),
        Part::Number(u128::from(sections)),
        Part::Text(b". Names: "),
        Part::Number(u128::from(names)),
        Part::Text(b". Macros: "),
        Part::Number(u128::from(macros)),
        Part::Text(b".\n"),
        NOTHING,
    ]
}

fn closing_chunk<'a>(count: u128, missing: bool) -> Chunk<'a>
    ensures { joined_parts result ≡ line (closing count missing) }
{
    if count != 0 {
        return between("(Faults: ", Part::Number(count), ".)\n");
    }
    if missing {
        return between("(Did you see the warning?)\n", NOTHING, "");
    }
    between("(No errors were found.)\n", NOTHING, "")
}

/// A star and a number. The last chunk ends the line.
fn star_chunk<'a>(numbers: &[u32], index: usize) -> Chunk<'a>
    requires { index ≤ length numbers.now }
    ensures { joined_parts result ≡ slice_index_or
        (map star numbers.now ++ codes "\n" ∷ []) index [] }
{
    if index < numbers.len() {
        return between("*", Part::Number(u128::from(numbers[index])), "");
    }
    between("\n", NOTHING, "")
}

/// The message, then a name after the one that uses it. The last chunk ends the line.
fn cycle_chunk<'a>(store: &'a Store, names: &[NameId], index: usize) -> Chunk<'a>
    requires { index < length names.now + 2 }
    ensures { joined_parts result ≡ slice_index_or
        (codes "! Cycle:" ∷ (map (cycle_step store.now) names.now ++ codes "\n" ∷ [])) index [] }
{
    if index == 0 {
        return between("! Cycle:", NOTHING, "");
    }
    if index <= names.len() {
        return between(" <", Part::Text(name_bytes(store, names[index - 1])), ">");
    }
    between("\n", NOTHING, "")
}
