// One step of a merger.
ghost use Rattle.std.specs.Prelude.{◌≡◌, ◌<◌, ◌+◌, ◌^◌, Ok};
ghost use Rattle.cweb_lines.specs.surface.MergeProgress.{NothingLeft, pending_in};
ghost use Rattle.cweb_lines.specs.inner.Stages.{IsSettled, begun_by, floor_of};
ghost use Rattle.cweb_lines.specs.inner.StepCalls.{TakesTurn};

use crate::change::code::{Code, change_code};
use crate::change::old_side::begin_change;
use crate::change::seek::seek;
use crate::change::{Change, Stage};
use crate::merge_state::MergeState;
use crate::open_source::LineAt;
use crate::step::Turn;
use crate::step::obey::emit_or_obey;
use crate::step::progress::{take_change, take_raw};
use crate::{SourceKind, Stop};
use cweb_files::{Place, Shelf};

// Takes a line of a change's new side. An include line is obeyed. A code line ends the side or is a fault.
fn take_new<S: Shelf>(
    shelf: &mut S,
    run: &mut MergeState<S::R>,
    change: Change,
    line: &mut Vec<u8>,
) -> Result<Turn, Stop>
    requires count { (S.model shelf.old).failed + 1 < 2 ^ 64 }
    requires changing { run.old.stage ≡ Stage.Changing change }
    requires below { run.old.stack.depth ≡ change.below }
    ensures { TakesTurn (S.model shelf.old) (S.model shelf.new) run.old run.new
        line.new.items result }
{
    let Some(at) = take_change(shelf, run, line)? else {
        run.report(SourceKind::EndedBeforeZ, change.begin, 0)?;
        run.stage = Stage::Done;
        return Ok(Turn::On);
    };
    match change_code(line) {
        None => {
            let at = LineAt {
                place: at.place,
                depth: change.depth,
                may_match: false,
            };
            emit_or_obey(shelf, run, line, at)
        }
        Some(code) => {
            if code == Code::EndSide {
                run.stage = Stage::Seeking;
                return Ok(Turn::On);
            }
            run.report(SourceKind::WantsZ, at.place, 0)?;
            Ok(Turn::On)
        }
    }
}

// No raw line is left above the floor.
fn take_end<S: Shelf>(
    shelf: &mut S,
    run: &mut MergeState<S::R>,
    line: &mut Vec<u8>,
) -> Result<Turn, Stop>
    requires count { (S.model shelf.old).failed + 1 < 2 ^ 64 }
    requires settled { IsSettled run.old.stage }
    requires floor { run.old.stack.depth ≡ floor_of run.old.stage }
    ensures { TakesTurn (S.model shelf.old) (S.model shelf.new) run.old run.new
        line.new.items result }
{
    match run.stage {
        Stage::Done | Stage::Seeking => Ok(Turn::Ended),
        Stage::Waiting(begin) => {
            run.report(SourceKind::NoMatch, begin, 0)?;
            run.stage = Stage::Done;
            Ok(Turn::On)
        }
        Stage::Changing(change) => take_new(shelf, run, change, line),
    }
}

/// The place of the `@x` of the entry that this line begins, if any.
pub fn begun_at(stage: Stage, first: &[u8], may_match: bool, line: &[u8]) -> Option<Place>
    ensures { result ≡ begun_by (pending_in stage first.now) may_match line.now }
{
    match stage {
        Stage::Waiting(begin) if may_match && line == first => Some(begin),
        _ => None,
    }
}

/// Seeks an entry, or takes a line that begins a change, is obeyed or is emitted.
pub fn take_turn<S: Shelf>(
    shelf: &mut S,
    run: &mut MergeState<S::R>,
    line: &mut Vec<u8>,
) -> Result<Turn, Stop>
    requires count { (S.model shelf.old).failed + 1 < 2 ^ 64 }
    ensures turn { TakesTurn (S.model shelf.old) (S.model shelf.new) run.old run.new
        line.new.items result }
    ensures ended { NothingLeft run.old → (result ≡ Ok Turn.Ended) × (run.new ≡ run.old)
        × (shelf.new ≡ shelf.old) }
{
    if run.has_ended() {
        return Ok(Turn::Ended);
    }
    if let Stage::Seeking = run.stage {
        seek(shelf, run, line)?;
        return Ok(Turn::On);
    }
    take_settled(shelf, run, line)
}

#[inline(always)]
fn take_settled<S: Shelf>(
    shelf: &mut S,
    run: &mut MergeState<S::R>,
    line: &mut Vec<u8>,
) -> Result<Turn, Stop>
    requires count { (S.model shelf.old).failed + 1 < 2 ^ 64 }
    requires settled { IsSettled run.old.stage }
    ensures { TakesTurn (S.model shelf.old) (S.model shelf.new) run.old run.new
        line.new.items result }
{
    let Some(at) = take_raw(shelf, run, line)? else {
        return take_end(shelf, run, line);
    };
    let Some(begin) = begun_at(run.stage, &run.first, at.may_match, line) else {
        return emit_or_obey(shelf, run, line, at);
    };
    begin_change(shelf, run, line, begin, at.depth)?;
    Ok(Turn::On)
}
