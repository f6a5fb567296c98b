// The old side of a change: its further old lines, and the raw lines that they replace.
ghost use Rattle.cweb_files.specs.Shelves.{Observed};
ghost use Rattle.std.specs.Prelude.{◌≡◌, ◌≤◌, ◌<◌, ◌+◌, ◌^◌, ◌++◌, [], length, IfOk, IfErr, OnOk, OnErr};
ghost use Rattle.cweb_lines.specs.inner.StepCalls.{GoesOn, Reads, TakesAway, outcome, OnlyTakes, OnlyReports};
ghost use Rattle.cweb_lines.specs.Merge.{change_events, closing_faults, fault_if};
ghost use Rattle.cweb_lines.specs.surface.OpenSources.{counters_of, StopsFor, things_above};
ghost use Rattle.cweb_lines.specs.surface.MergeProgress.{ReportsPrefix, change_lines, things_of, so_far_of};
ghost use Rattle.cweb_lines.specs.surface.OpenedFileNames.{opened_file_names};
ghost use Rattle.cweb_lines.specs.inner.MergeProgress.{Compares, IsChanged, IsReplaced, old_side_of};
ghost use Rattle.cweb_lines.specs.inner.MergeProgress.{ReportsFaultPrefix, StopsOldSide};
ghost use Rattle.cweb_lines.specs.inner.Stages.{floor_of};
ghost use Rattle.cweb_lines.specs.inner.OpenSources.{TopStops};

use crate::change::code::{Code, change_code};
use crate::change::{Change, Stage};
use crate::merge_state::MergeState;
use crate::step::progress::{take_change, take_raw};
use crate::{SourceKind, Stop};
use cweb_files::{Place, Shelf};
use std::mem::swap;

/// What comparing the old lines after the first found.
#[derive(Clone, Copy)]
pub struct Replaced {
    /// How many differ from the lines of the web.
    pub unequal: u32,
    /// The web ended before all were compared.
    pub ran_out: bool,
    /// The change file ended before the new lines.
    pub ended: bool,
}

// Compares an old line, which is in `run.first`, with the next raw line, and drops both.
fn compare<S: Shelf>(
    shelf: &mut S,
    run: &mut MergeState<S::R>,
    line: &mut Vec<u8>,
    so_far: Replaced,
) -> Result<Replaced, Stop>
    requires count { (S.model shelf.old).failed + 1 < 2 ^ 64 }
    requires floor { floor_of run.old.stage ≡ 0 }
    requires few { so_far.unequal ≤ run.old.limits.lines }
    ensures reads { Reads (S.model shelf.old) (S.model shelf.new) run.old run.new (outcome result) }
    ensures compares { Observed (S.model shelf.old) (λ seen.
        IfOk result (λ replaced. Compares run.old.first.items so_far replaced
        (things_above seen.left 0 run.old.stack [])
        (things_above seen.left 0 run.new.stack []) (so_far_of run.old)
        (so_far_of run.new))) }
    ensures stops { Observed (S.model shelf.old) (λ seen.
        IfErr result (λ stop. StopsFor (TopStops stop (counters_of run.old.limits)
        (things_above seen.left 0 run.old.stack [])) stop)) }
    ensures away { TakesAway so_far run.old run.new result }
    ensures only { OnlyTakes run.old run.new }
    ensures change { run.new.change ≡ run.old.change }
{
    let Some(_) = take_raw(shelf, run, line)? else {
        return Ok(Replaced {
            ran_out: true,
            ..so_far
        });
    };
    if line.as_slice() == run.first.as_slice() {
        return Ok(so_far);
    }
    Ok(Replaced {
        unequal: so_far.unequal + 1,
        ..so_far
    })
}

// Takes the further old lines, and one raw line for each, across the ends of included files.
fn replace<S: Shelf>(
    shelf: &mut S,
    run: &mut MergeState<S::R>,
    line: &mut Vec<u8>,
) -> Result<Replaced, Stop>
    requires count { (S.model shelf.old).failed + 1 < 2 ^ 64 }
    requires floor { floor_of run.old.stage ≡ 0 }
    ensures reads { Reads (S.model shelf.old) (S.model shelf.new) run.old run.new (outcome result) }
    ensures replaced { Observed (S.model shelf.old) (λ seen.
        IfOk result (λ replaced. IsReplaced (old_side_of seen.left run.old) replaced
        (change_lines seen.left run.new)
        (things_above seen.left 0 run.new.stack []) (so_far_of run.old)
        (so_far_of run.new))) }
    ensures stops { Observed (S.model shelf.old) (λ seen.
        IfErr result (λ stop. StopsOldSide stop (so_far_of run.old) (so_far_of run.new)
        (old_side_of seen.left run.old))) }
    ensures reported { Observed (S.model shelf.old) (λ seen.
        OnErr result (ReportsPrefix (so_far_of run.old) (so_far_of run.new)
        (old_side_of seen.left run.old).events)) }
    ensures goes { GoesOn run.old run.new result }
    ensures stage { run.new.stage ≡ run.old.stage }
{
    let mut so_far = Replaced {
        unequal: 0,
        ran_out: false,
        ended: false,
    };
    'lines: loop {
        let Some(at) = take_change(shelf, run, line)? else {
            return Ok(Replaced {
                ended: true,
                ..so_far
            });
        };
        match change_code(line) {
            None => {
                swap(&mut run.first, line);
                so_far = compare(shelf, run, line, so_far)?;
            }
            Some(code) => {
                if code == Code::NewSide {
                    return Ok(so_far);
                }
                run.report(SourceKind::WantsY, at.place, 0)?;
            }
        }
    }
}

fn report_if<R: Drop>(
    run: &mut MergeState<R>,
    reported: bool,
    kind: SourceKind,
    place: Place,
    count: u32,
) -> Result<(), Stop>
    requires known { place.file.0 < length (opened_file_names run.old.names) }
    ensures reported { OnOk result (run.new.faults.items ≡ run.old.faults.items
        ++ fault_if reported (record { kind = kind; place = place; count = count })) }
    ensures err { OnErr result (run.new.faults.items ≡ run.old.faults.items) }
    ensures memory { IfErr result (λ stop. stop ≡ Stop.Memory) }
    ensures only { OnlyReports run.old run.new }
{
    if !reported {
        return Ok(());
    }
    run.report(kind, place, count)
}

// Reports the faults of the old side as a whole.
fn close<R: Drop>(run: &mut MergeState<R>, begin: Place, replaced: Replaced) -> Result<(), Stop>
    requires known { begin.file.0 < length (opened_file_names run.old.names) }
    ensures reported { OnOk result (run.new.faults.items ≡ run.old.faults.items
        ++ closing_faults begin replaced.ended replaced.ran_out replaced.unequal) }
    ensures err { OnErr result
        (ReportsFaultPrefix (closing_faults begin replaced.ended replaced.ran_out
        replaced.unequal) run.old.faults.items run.new.faults.items) }
    ensures memory { IfErr result (λ stop. stop ≡ Stop.Memory) }
    ensures only { OnlyReports run.old run.new }
{
    report_if(run, replaced.ended, SourceKind::EndedBeforeY, begin, 0)?;
    report_if(run, replaced.ran_out, SourceKind::WebEnded, begin, 0)?;
    let differ = replaced.unequal > 0;
    report_if(run, differ, SourceKind::Unequal, begin, replaced.unequal)
}

/// Begins a change whose first old line was matched, and drops its old side. If the change file has ended, there is
/// neither a new side nor a further entry.
pub fn begin_change<S: Shelf>(
    shelf: &mut S,
    run: &mut MergeState<S::R>,
    line: &mut Vec<u8>,
    begin: Place,
    depth: usize,
) -> Result<(), Stop>
    requires count { (S.model shelf.old).failed + 1 < 2 ^ 64 }
    requires floor { floor_of run.old.stage ≡ 0 }
    requires known { begin.file.0 < length (opened_file_names run.old.names) }
    requires deep { run.old.stack.depth ≤ depth }
    ensures reads { Reads (S.model shelf.old) (S.model shelf.new) run.old run.new (outcome result) }
    ensures changed { Observed (S.model shelf.old) (λ seen.
        OnOk result (IsChanged begin depth (old_side_of seen.left run.old) run.new.stage
        (change_lines seen.left run.new) (things_of seen.left run.new)
        (so_far_of run.old) (so_far_of run.new))) }
    ensures stops { Observed (S.model shelf.old) (λ seen.
        IfErr result (λ stop. StopsOldSide stop (so_far_of run.old) (so_far_of run.new)
        (old_side_of seen.left run.old))) }
    ensures reported { Observed (S.model shelf.old) (λ seen.
        OnErr result (ReportsPrefix (so_far_of run.old) (so_far_of run.new)
        (change_events begin (old_side_of seen.left run.old)))) }
    ensures goes { GoesOn run.old run.new result }
{
    let replaced = replace(shelf, run, line)?;
    close(run, begin, replaced)?;
    run.stage = if replaced.ended {
        Stage::Done
    } else {
        Stage::Changing(Change {
            begin,
            below: run.stack.depth,
            depth,
        })
    };
    Ok(())
}
