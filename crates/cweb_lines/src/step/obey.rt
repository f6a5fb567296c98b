// Lines that begin no change: include lines are obeyed, and others are emitted.
ghost use Rattle.std.specs.Prelude.{◌≡◌, ◌≤◌, ◌<◌, ◌+◌, ◌++◌, ◌∷◌, [], length, IfOk, IfErr, OnOk};
ghost use Rattle.std.specs.Prelude.{OnErr, string_bytes, true, ℕ, List, ◌⊎◌};
ghost use Rattle.cweb_lines.specs.inner.StepCalls.{IsPlainLine, Obeys, OnlyOpens};
ghost use Rattle.cweb_lines.specs.Include as spec;
ghost use Rattle.cweb_lines.specs.inner.MergeProgress.{turn_lines};
ghost use Rattle.cweb_lines.specs.surface.MergeProgress.{KeepsReported, so_far_of};
ghost use Rattle.cweb_lines.specs.surface.OpenedFileNames.{opened_file_names};
ghost use Rattle.cweb_lines.specs.declared.limits.TheConstants.{OPEN_FILES};
ghost use Rattle.cweb_lines.specs.inner.OpenSources.{OpensSource, StaysBelow};
ghost use Rattle.cweb_lines.specs.surface.MergerCalls.{AreReadersKnown};

use crate::files::find::{Opening, find};
use crate::include::{include_name, is_include_line};
use crate::limits::OPEN_FILES;
use crate::merge_state::MergeState;
use crate::open::open_source;
use crate::open_source::LineAt;
use crate::step::Turn;
use crate::{SourceKind, Stop};
use cweb_files::Shelf;

// Opens an included file. Its lines are next, one deeper than the include line, and match as it does.
fn open<R: Drop>(run: &mut MergeState<R>, opening: Opening<R>, at: LineAt) -> Result<(), Stop>
    requires room { at.depth < OPEN_FILES }
    requires deep { run.old.stack.depth ≤ at.depth }
    requires names { length (opened_file_names run.old.names) < run.old.limits.lines + 2 }
    ensures same { OnErr result (opened_file_names run.new.names
        ≡ opened_file_names run.old.names) }
    ensures memory { IfErr result (λ stop. stop ≡ Stop.Memory) }
    ensures opens { OnOk result ((opened_file_names run.new.names ≡ opened_file_names run.old.names
        ++ string_bytes opening.name ∷ []) × OpensSource run.old.stack run.new.stack opening.reader
        (length (opened_file_names run.old.names)) at) }
    ensures still { KeepsReported (so_far_of run.old) (so_far_of run.new) }
    ensures below { StaysBelow run.old.stack.depth run.old.stack.texts run.new.stack.texts }
    ensures readers { (opened_as : R → List ℕ) →
        opened_as opening.reader ≡ string_bytes opening.name →
        AreReadersKnown opened_as run.old → AreReadersKnown opened_as run.new }
    ensures only { OnlyOpens run.old run.new }
{
    let text = open_source(
        run.alloc,
        &mut run.names,
        opening,
        at.depth + 1,
        at.may_match,
    )?;
    run.stack.push(text);
    Ok(())
}

// Obeys an include line: opens a file, or reports a fault.
fn obey<S: Shelf>(
    shelf: &mut S,
    run: &mut MergeState<S::R>,
    line: &[u8],
    at: LineAt,
) -> Result<(), Stop>
    requires include { spec.is_include_line line.now ≡ true }
    requires plain { IsPlainLine run.old line.now at }
    ensures { Obeys (S.model shelf.old) (S.model shelf.new) run.old run.new line.now at
        (λ _. []) result }
{
    let name = include_name(line);
    if name.is_empty() {
        return run.report(SourceKind::NoName, at.place, 0);
    }
    if at.depth >= OPEN_FILES {
        return run.report(SourceKind::TooDeep, at.place, 0);
    }
    let Some(opening) = find(run.alloc, shelf, &run.inputs, name)? else {
        return run.report(SourceKind::NotThere, at.place, 0);
    };
    open(run, opening, at)
}

/// Emits a line that begins no change, or obeys it if it is an include line.
#[inline(always)]
pub fn emit_or_obey<S: Shelf>(
    shelf: &mut S,
    run: &mut MergeState<S::R>,
    line: &[u8],
    at: LineAt,
) -> Result<Turn, Stop>
    requires { IsPlainLine run.old line.now at }
    ensures obeys { Obeys (S.model shelf.old) (S.model shelf.new) run.old run.new line.now at
        (λ turn. turn_lines turn line.now) result }
    ensures turn { IfOk result (λ turn. (turn ≡ Turn.Emitted at.place) ⊎ (turn ≡ Turn.On)) }
{
    if !is_include_line(line) {
        return Ok(Turn::Emitted(at.place));
    }
    obey(shelf, run, line, at)?;
    Ok(Turn::On)
}
