// Elementary actions of a merger: taking a line and reporting a fault.
ghost use Rattle.cweb_files.specs.Shelves.{Observed};
ghost use Rattle.std.specs.Prelude.{◌≡◌, ◌<◌, ◌+◌, ◌^◌, ◌++◌, ◌∷◌, [], length, IsTrue, IfOk, IfErr, OnOk, OnErr};
ghost use Rattle.cweb_lines.specs.inner.LineCalls.{ClosesAbove};
ghost use Rattle.cweb_lines.specs.surface.OpenSources.{counters_of, StopsFor};
ghost use Rattle.cweb_lines.specs.surface.MergeProgress.{NothingLeft, change_lines};
ghost use Rattle.cweb_lines.specs.surface.OpenedFileNames.{opened_file_names};
ghost use Rattle.cweb_lines.specs.inner.Stages.{floor_of};
ghost use Rattle.cweb_lines.specs.inner.StepCalls.{OnlyReports, TakesLine};
ghost use Rattle.cweb_lines.specs.inner.OpenSources.{TakesNextLine, TakesAbove, FirstStops, StopsAbove};

use crate::change::Stage;
use crate::merge_state::MergeState;
use crate::open_source::LineAt;
use crate::open_source::stack::take_above;
use crate::open_source::take::take_from;
use crate::{SourceFault, SourceKind, Stop};
use cweb_files::{Place, Shelf};
use std::alloc::AllocError;

impl<R: Drop> MergeState<R> {
    /// The number of sources that stay open while lines are taken.
    pub fn floor(&self) -> usize
        ensures { result ≡ floor_of self.now.stage }
    {
        match self.stage {
            Stage::Changing(change) => change.below,
            Stage::Done | Stage::Seeking | Stage::Waiting(_) => 0,
        }
    }

    /// Whether nothing is left.
    pub fn has_ended(&self) -> bool
        ensures yes { IsTrue result → NothingLeft self.now }
        ensures no { NothingLeft self.now → IsTrue result }
    {
        self.stack.depth == 0 && matches!(self.stage, Stage::Done)
    }

    /// Appends a fault.
    pub fn report(&mut self, kind: SourceKind, place: Place, count: u32) -> Result<(), Stop>
        requires known { place.file.0 < length (opened_file_names self.old.names) }
        ensures reported { OnOk result (self.new.faults.items ≡ self.old.faults.items
            ++ record { kind = kind; place = place; count = count } ∷ []) }
        ensures err { OnErr result (self.new.faults.items ≡ self.old.faults.items) }
        ensures memory { IfErr result (λ stop. stop ≡ Stop.Memory) }
        ensures only { OnlyReports self.old self.new }
    {
        let fault = SourceFault { kind, place, count };
        self.faults.push(fault).map_err(|e| AllocError::from(e))?;
        Ok(())
    }
}

/// Takes the next line of the change file.
pub fn take_change<S: Shelf>(
    shelf: &mut S,
    run: &mut MergeState<S::R>,
    line: &mut Vec<u8>,
) -> Result<Option<LineAt>, Stop>
    requires { (S.model shelf.old).failed + 1 < 2 ^ 64 }
    ensures takes { TakesLine (S.model shelf.old) (S.model shelf.new) run.old run.new
        line.new.items result }
    ensures taken { Observed (S.model shelf.old) (λ seen.
        IfOk result (λ at. TakesNextLine (change_lines seen.left run.old) at line.new.items
        (change_lines seen.left run.new) (counters_of run.old.limits)
        (counters_of run.new.limits))) }
    ensures stops { Observed (S.model shelf.old) (λ seen.
        IfErr result (λ stop. StopsFor (FirstStops stop (counters_of run.old.limits)
        (change_lines seen.left run.old)) stop)) }
    ensures stack { run.new.stack ≡ run.old.stack }
{
    take_from(shelf, &mut run.change, &mut run.limits, line)
}

/// Takes the next line of the open sources above the floor.
#[inline(always)]
pub fn take_raw<S: Shelf>(
    shelf: &mut S,
    run: &mut MergeState<S::R>,
    line: &mut Vec<u8>,
) -> Result<Option<LineAt>, Stop>
    requires { (S.model shelf.old).failed + 1 < 2 ^ 64 }
    ensures takes { TakesLine (S.model shelf.old) (S.model shelf.new) run.old run.new
        line.new.items result }
    ensures taken { Observed (S.model shelf.old) (λ seen.
        IfOk result (λ at. TakesAbove seen.left
        (floor_of run.old.stage) run.old.stack run.new.stack at line.new.items
        (counters_of run.old.limits) (counters_of run.new.limits))) }
    ensures stops { Observed (S.model shelf.old) (λ seen.
        IfErr result (λ stop. StopsFor (StopsAbove seen.left
        (floor_of run.old.stage) run.old.stack stop (counters_of run.old.limits)) stop)) }
    ensures closes { ClosesAbove (floor_of run.old.stage) run.old.stack run.new.stack result }
    ensures change { run.new.change ≡ run.old.change }
{
    let low = run.floor();
    take_above(shelf, &mut run.stack, low, &mut run.limits, line)
}
