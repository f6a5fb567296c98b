// The stack of open sources, the deepest last.
ghost use Rattle.std.specs.Prelude.{◌≡◌, ◌≤◌, ◌<◌, ◌+◌, ◌-◌, ◌^◌, ℕ, ◌∷◌, replicate, IfOk, IfErr, None, Some};
ghost use Rattle.std.specs.Prelude.{slice_set, slice_index_or};
ghost use Rattle.cweb_files.specs.Shelves.{Observed};
ghost use Rattle.cweb_lines.specs.inner.LineCalls.{ClosesAbove, ClosesTop, TakesFromStack};
ghost use Rattle.cweb_lines.specs.surface.OpenSources.{counters_of, StopsFor};
ghost use Rattle.cweb_lines.specs.declared.limits.TheConstants.{OPEN_FILES};
ghost use Rattle.cweb_lines.specs.inner.OpenSources.{maximum_of, line_number, files_up_to, AreDeep, TakesTop};
ghost use Rattle.cweb_lines.specs.inner.OpenSources.{TakesAbove, NeedsRead, StopsTop, StopsAbove, StaysBelow, Pushes};

use crate::counters::TakenCounters;
use crate::limits::OPEN_FILES;
use crate::open_source::take::take_from;
use crate::open_source::{LineAt, OpenSource};
use crate::stop::Stop;
use cweb_files::Shelf;

/// The web and the files that are open within it. The source at index `depth - 1` is being read.
#[derive(Drop)]
pub struct Stack<R: Drop> {
    pub texts: [Option<OpenSource<R>>; OPEN_FILES],
    pub depth: usize,
}

impl<R: Drop> Stack<R> {
    /// A stack with the web alone.
    #[rattlefmt::skip]
    pub fn new(text: OpenSource<R>) -> Self
        ensures depth { result.depth ≡ 1 }
        ensures numbers { maximum_of line_number result.texts ≤ text.line }
        ensures files { maximum_of files_up_to result.texts ≤ text.file.0 + 1 }
        ensures deep { 0 < text.depth → AreDeep result.texts }
        ensures texts { result.texts ≡ Some text ∷ replicate (OPEN_FILES - 1) None }
    {
        Stack {
            texts: [
                Some(text), None, None, None, None, None, None, None, None, None,
                None, None, None, None, None, None, None, None, None, None,
            ],
            depth: 1,
        }
    }

    /// Opens a source within the deepest one. The others stay as they are.
    pub fn push(&mut self, text: OpenSource<R>)
        requires room { self.old.depth < OPEN_FILES }
        requires deep { AreDeep self.old.texts }
        requires deeper { self.old.depth < text.depth }
        ensures depth { self.new.depth ≡ self.old.depth + 1 }
        ensures texts { self.new.texts ≡ slice_set self.old.texts self.old.depth (Some text) }
        ensures pushes { Pushes self.old self.new text }
        ensures below { StaysBelow self.old.depth self.old.texts self.new.texts }
        ensures deep { AreDeep self.new.texts }
    {
        self.texts[self.depth] = Some(text);
        self.depth += 1;
    }
}

// Takes a line of the deepest source, or closes that source if it has no more.
#[inline(always)]
fn take_top<S: Shelf>(
    shelf: &mut S,
    stack: &mut Stack<S::R>,
    limits: &mut TakenCounters,
    line: &mut Vec<u8>,
) -> Result<Option<LineAt>, Stop>
    requires count { (S.model shelf.old).failed + 1 < 2 ^ 64 }
    requires some { 0 < stack.old.depth }
    requires shallow { stack.old.depth ≤ OPEN_FILES }
    requires numbers { maximum_of line_number stack.old.texts ≤ limits.old.lines }
    requires deep { AreDeep stack.old.texts }
    ensures takes { TakesFromStack (S.model shelf.old) (S.model shelf.new) stack.old stack.new
        limits.old limits.new line.new.items result }
    ensures taken { Observed (S.model shelf.old) (λ seen.
        IfOk result (λ at. TakesTop seen.left stack.old stack.new at line.new.items
        (counters_of limits.old) (counters_of limits.new))) }
    ensures stops { Observed (S.model shelf.old) (λ seen.
        IfErr result (λ stop. StopsFor (StopsTop seen.left stack.old stop
        (counters_of limits.old)) stop)) }
    ensures closes { ClosesTop stack.old stack.new result }
    ensures needed { IfErr result (λ stop.
        NeedsRead (slice_index_or stack.old.texts (stack.old.depth - 1) None) stop) }
{
    let top = stack.depth - 1;
    let Some(at) = take_from(shelf, &mut stack.texts[top], limits, line)? else {
        stack.texts[top] = None;
        stack.depth = top;
        return Ok(None);
    };
    Ok(Some(at))
}

/// Takes the next line of the sources from index `low` on, and closes those that have no more. `None`: all have ended.
#[inline(always)]
pub fn take_above<S: Shelf>(
    shelf: &mut S,
    stack: &mut Stack<S::R>,
    low: usize,
    limits: &mut TakenCounters,
    line: &mut Vec<u8>,
) -> Result<Option<LineAt>, Stop>
    requires count { (S.model shelf.old).failed + 1 < 2 ^ 64 }
    requires low { low ≤ stack.old.depth }
    requires shallow { stack.old.depth ≤ OPEN_FILES }
    requires numbers { maximum_of line_number stack.old.texts ≤ limits.old.lines }
    requires deep { AreDeep stack.old.texts }
    ensures takes { TakesFromStack (S.model shelf.old) (S.model shelf.new) stack.old stack.new
        limits.old limits.new line.new.items result }
    ensures taken { Observed (S.model shelf.old) (λ seen.
        IfOk result (λ at. TakesAbove seen.left low stack.old stack.new at line.new.items
        (counters_of limits.old) (counters_of limits.new))) }
    ensures stops { Observed (S.model shelf.old) (λ seen.
        IfErr result (λ stop. StopsFor (StopsAbove seen.left low stack.old stop
        (counters_of limits.old)) stop)) }
    ensures closes { ClosesAbove low stack.old stack.new result }
    ensures needed { IfErr result (λ stop. (place : ℕ)
        × NeedsRead (slice_index_or stack.old.texts place None) stop) }
{
    'texts: while stack.depth > low {
        let Some(at) = take_top(shelf, stack, limits, line)? else {
            continue;
        };
        return Ok(Some(at));
    }
    Ok(None)
}
