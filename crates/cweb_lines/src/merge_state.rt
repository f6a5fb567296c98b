// What a merger holds.
ghost use Rattle.std.specs.Prelude.{◌≤◌, ◌+◌, length};
ghost use Rattle.cweb_lines.specs.surface.OpenedFileNames.{opened_file_names};
ghost use Rattle.cweb_lines.specs.declared.limits.TheConstants.{OPEN_FILES};
ghost use Rattle.cweb_lines.specs.inner.OpenSources.{AreDeep, maximum_of, line_number, files_up_to};
ghost use Rattle.cweb_lines.specs.surface.OpenSources.{number_or_zero};
ghost use Rattle.cweb_lines.specs.inner.Stages.{files_of_faults, files_of_stop, floor_of, new_depth, files_begun};

use crate::change::Stage;
use crate::counters::TakenCounters;
use crate::open_source::OpenSource;
use crate::open_source::stack::Stack;
use crate::{FileNames, SourceFault, Stop};
use std::alloc::Global;

/// The state of a merger. The shelf isn't part of it.
#[derive(Drop)]
pub struct MergeState<R: Drop> {
    pub alloc: Global,
    /// The folder that is also searched for included files.
    pub inputs: Option<String>,
    pub stack: Stack<R>,
    /// The change file. Its lines are only taken forward.
    pub change: Option<OpenSource<R>>,
    pub stage: Stage,
    /// The first old line of the entry that waits.
    pub first: Vec<u8>,
    pub limits: TakenCounters,
    pub faults: Vec<SourceFault>,
    pub names: FileNames,
    /// The stop that each further call returns.
    pub stopped: Option<Stop>,
    ghost shallow: { stack.depth ≤ OPEN_FILES },
    ghost deep: { AreDeep stack.texts },
    ghost numbers: { maximum_of line_number stack.texts ≤ limits.lines },
    ghost change_number: { number_or_zero line_number change ≤ limits.lines },
    // the sources below a change stay open, and its new lines are at least as deep
    ghost floor: { floor_of stage ≤ stack.depth },
    ghost floor_deep: { floor_of stage ≤ new_depth stage },
    ghost named: { length (opened_file_names names) ≤ limits.lines + 2 },
    // each file number of an open source, an entry, a fault or the stored stop is below the count of opened files
    ghost open_known: { maximum_of files_up_to stack.texts ≤ length (opened_file_names names) },
    ghost change_known: { number_or_zero files_up_to change ≤ length (opened_file_names names) },
    ghost begun_known: { files_begun stage ≤ length (opened_file_names names) },
    ghost faults_known: { files_of_faults faults.items ≤ length (opened_file_names names) },
    ghost stop_known: { files_of_stop stopped ≤ length (opened_file_names names) },
}
