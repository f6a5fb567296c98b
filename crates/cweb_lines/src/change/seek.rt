// The search for the next entry of a change file.
ghost use Rattle.cweb_files.specs.Shelves.{Observed};
ghost use Rattle.std.specs.Prelude.{◌≡◌, ◌<◌, ◌+◌, ◌^◌, ◌++◌, ◌∷◌, [], List, length, IfOk};
ghost use Rattle.std.specs.Prelude.{IfErr, OnOk, OnErr, None, Some};
ghost use Rattle.cweb_lines.specs.inner.StepCalls.{OnlySeeks, Reads, outcome, OnlyReports};
ghost use Rattle.cweb_lines.specs.Change.{sought};
ghost use Rattle.cweb_lines.specs.Lines.{SourceLine};
ghost use Rattle.cweb_lines.specs.surface.MergeProgress.{change_lines, so_far_of};
ghost use Rattle.cweb_lines.specs.Events.{reported_faults};
ghost use Rattle.cweb_lines.specs.surface.OpenedFileNames.{opened_file_names};
ghost use Rattle.cweb_lines.specs.inner.MergeProgress.{BegunKnown, LooksAt, LooksKnown, Searched};
ghost use Rattle.cweb_lines.specs.inner.MergeProgress.{LooksInPart, begun_outside, faults_outside};
ghost use Rattle.cweb_lines.specs.surface.MergerCalls.{StopsThere};

use crate::change::Stage;
use crate::change::code::{Code, change_code};
use crate::merge_state::MergeState;
use crate::step::progress::take_change;
use crate::{SourceKind, Stop};
use cweb_files::{Place, Shelf};
use std::mem::swap;

/// What a line of the change file is in a search.
#[derive(Clone, Copy)]
pub enum Look {
    /// The first old line of the entry whose `@x` is at this place.
    Entry(Place),
    /// Another line. The place is that of an `@x` without an old line so far.
    On(Option<Place>),
}

// A line outside an entry. An `@x` may begin one.
fn pass<R: Drop>(
    run: &mut MergeState<R>,
    code: Option<Code>,
    place: Place,
) -> Result<Option<Place>, Stop>
    requires known { place.file.0 < length (opened_file_names run.old.names) }
    ensures next { IfOk result (λ next. next ≡ begun_outside code place) }
    ensures reported { OnOk result (run.new.faults.items ≡ run.old.faults.items
        ++ faults_outside code place) }
    ensures err { OnErr result (run.new.faults.items ≡ run.old.faults.items) }
    ensures memory { IfErr result (λ stop. stop ≡ Stop.Memory) }
    ensures only { OnlyReports run.old run.new }
{
    match code {
        None => Ok(None),
        Some(Code::OldSide) => Ok(Some(place)),
        Some(Code::NewSide) | Some(Code::EndSide) => {
            run.report(SourceKind::MissingX, place, 0)?;
            Ok(None)
        }
    }
}

// A line after `@x`: empty lines are skipped, and a code line restarts the search.
fn look_after_x<R: Drop>(
    run: &mut MergeState<R>,
    line: &[u8],
    place: Place,
    begin: Place,
) -> Result<Look, Stop>
    requires known { place.file.0 < length (opened_file_names run.old.names) }
    requires begun { begin.file.0 < length (opened_file_names run.old.names) }
    ensures looks { IfOk result (λ look. LooksAt look
        (Some begin) line.now place run.old.faults.items run.new.faults.items) }
    ensures err { OnErr result ((source : SourceLine) →
        source.line ≡ record { bytes = line.now; place = place } → (lines : List SourceLine) →
        LooksInPart source (sought (source ∷ lines) (Some begin)).events run.old.faults.items
        run.new.faults.items) }
    ensures known { IfOk result
        (λ look. LooksKnown (length (opened_file_names run.old.names)) look) }
    ensures memory { IfErr result (λ stop. stop ≡ Stop.Memory) }
    ensures only { OnlyReports run.old run.new }
{
    if line.is_empty() {
        return Ok(Look::On(Some(begin)));
    }
    let code = change_code(line);
    if code.is_none() {
        return Ok(Look::Entry(begin));
    }
    run.report(SourceKind::NoOldLines, begin, 0)?;
    Ok(Look::On(pass(run, code, place)?))
}

fn look_at<R: Drop>(
    run: &mut MergeState<R>,
    line: &[u8],
    place: Place,
    begin: Option<Place>,
) -> Result<Look, Stop>
    requires known { place.file.0 < length (opened_file_names run.old.names) }
    requires begun { BegunKnown (length (opened_file_names run.old.names)) begin }
    ensures looks { IfOk result (λ look. LooksAt look begin line.now place run.old.faults.items
        run.new.faults.items) }
    ensures err { OnErr result ((source : SourceLine) →
        source.line ≡ record { bytes = line.now; place = place } → (lines : List SourceLine) →
        LooksInPart source (sought (source ∷ lines) begin).events run.old.faults.items
        run.new.faults.items) }
    ensures known { IfOk result
        (λ look. LooksKnown (length (opened_file_names run.old.names)) look) }
    ensures memory { IfErr result (λ stop. stop ≡ Stop.Memory) }
    ensures only { OnlyReports run.old run.new }
{
    if let Some(begin) = begin {
        return look_after_x(run, line, place, begin);
    }
    Ok(Look::On(pass(run, change_code(line), place)?))
}

// Ends the search at the end of the change file.
fn end<R: Drop>(run: &mut MergeState<R>, begin: Option<Place>) -> Result<(), Stop>
    requires begun { BegunKnown (length (opened_file_names run.old.names)) begin }
    ensures reported { OnOk result (run.new.faults.items ≡ run.old.faults.items
        ++ reported_faults (sought [] begin).events) }
    ensures err { OnErr result (run.new.faults.items ≡ run.old.faults.items) }
    ensures stage { OnOk result (run.new.stage ≡ Stage.Done) }
    ensures memory { IfErr result (λ stop. stop ≡ Stop.Memory) }
    ensures inputs { run.new.inputs ≡ run.old.inputs }
    ensures stack { run.new.stack ≡ run.old.stack }
    ensures change { run.new.change ≡ run.old.change }
    ensures limits { run.new.limits ≡ run.old.limits }
    ensures names { run.new.names ≡ run.old.names }
    ensures stopped { run.new.stopped ≡ run.old.stopped }
{
    if let Some(place) = begin {
        run.report(SourceKind::NoOldLines, place, 0)?;
    }
    run.stage = Stage::Done;
    Ok(())
}

/// Seeks the next entry, which then waits for its first old line.
pub fn seek<S: Shelf>(
    shelf: &mut S,
    run: &mut MergeState<S::R>,
    line: &mut Vec<u8>,
) -> Result<(), Stop>
    requires count { (S.model shelf.old).failed + 1 < 2 ^ 64 }
    requires seeking { run.old.stage ≡ Stage.Seeking }
    ensures reads { Reads (S.model shelf.old) (S.model shelf.new) run.old run.new (outcome result) }
    ensures searched { Observed (S.model shelf.old) (λ seen.
        OnOk result (Searched (sought (change_lines seen.left run.old) None)
        (so_far_of run.old) (so_far_of run.new) run.new.stage run.new.first.items
        (change_lines seen.left run.new))) }
    ensures stops { Observed (S.model shelf.old) (λ seen.
        IfErr result (λ stop. StopsThere stop (so_far_of run.old) (so_far_of run.new)
        (sought (change_lines seen.left run.old) None).events)) }
    ensures only { OnlySeeks run.old run.new result }
{
    let mut begin: Option<Place> = None;
    'lines: loop {
        let Some(at) = take_change(shelf, run, line)? else {
            return end(run, begin);
        };
        let looked = look_at(run, line, at.place, begin)?;
        match looked {
            Look::On(next) => begin = next,
            Look::Entry(place) => {
                swap(&mut run.first, line);
                run.stage = Stage::Waiting(place);
                return Ok(());
            }
        }
    }
}
