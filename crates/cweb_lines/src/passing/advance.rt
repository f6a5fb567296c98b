// Lines that pass through are taken and counted.
ghost use Rattle.std.specs.Prelude.{◌≡◌, ◌≤◌, ◌<◌, ◌+◌, ℕ, List, Option, length};
ghost use Rattle.cweb_lines.specs.Change.{WaitingEntry};
ghost use Rattle.cweb_lines.specs.inner.Passing.{ComesNext, EmitsBufferedLines, HasRoomFor, KeepsLevel, KeepsTop};
ghost use Rattle.cweb_lines.specs.inner.Passing.{PassesSlot, PassesTop, IsRunAt, IsRunOf, lines_next};
ghost use Rattle.cweb_lines.specs.inner.Passing.{buffer_of, with_newlines, top_of};
ghost use Rattle.cweb_lines.specs.inner.OpenSources.{line_number, maximum_of};
ghost use Rattle.cweb_lines.specs.surface.OpenSources.{number_or_zero};
ghost use Rattle.cweb_lines.specs.declared.limits.TheConstants.{OPEN_FILES};

use crate::counters::TakenCounters;
use crate::limits::OPEN_FILES;
use crate::merge_state::MergeState;
use crate::open_source::OpenSource;
use crate::open_source::stack::Stack;
use crate::passing::stretch::Stretch;

#[inline(always)]
fn advance_source<R: Drop>(text: &mut OpenSource<R>, limits: &mut TakenCounters, stretch: Stretch)
    requires next { (entry : Option WaitingEntry) × (lines : List (List ℕ))
        × IsRunOf entry text.old stretch lines × HasRoomFor limits.old lines }
    requires number { text.old.line ≤ limits.old.lines }
    ensures passes { (entry : Option WaitingEntry) → (lines : List (List ℕ)) →
        IsRunOf entry text.old stretch lines →
        PassesSlot (Some text.old) (Some text.new) limits.old limits.new lines }
    ensures level { KeepsLevel (Some text.old) (Some text.new) }
    ensures more { limits.old.lines ≤ limits.new.lines }
    ensures number { text.new.line ≤ limits.new.lines }
{
    limits.add_all(stretch.lines, stretch.end - text.source.start);
    text.source.start = stretch.end;
    text.line += stretch.lines;
}

#[inline(always)]
pub fn advance_slot<R: Drop>(
    slot: &mut Option<OpenSource<R>>,
    limits: &mut TakenCounters,
    stretch: Stretch,
)
    requires next { (entry : Option WaitingEntry) × (lines : List (List ℕ))
        × IsRunAt entry slot.old stretch lines × HasRoomFor limits.old lines }
    requires number { number_or_zero line_number slot.old ≤ limits.old.lines }
    ensures passes { (entry : Option WaitingEntry) → (lines : List (List ℕ)) →
        IsRunAt entry slot.old stretch lines →
        PassesSlot slot.old slot.new limits.old limits.new lines }
    ensures level { KeepsLevel slot.old slot.new }
    ensures more { limits.old.lines ≤ limits.new.lines }
    ensures number { number_or_zero line_number slot.new ≤ limits.new.lines }
{
    match slot {
        Some(text) => advance_source(text, limits, stretch),
        None => {}
    }
}

#[inline(always)]
pub fn advance_top<R: Drop>(stack: &mut Stack<R>, limits: &mut TakenCounters, stretch: Stretch)
    requires some { 0 < stack.old.depth }
    requires shallow { stack.old.depth ≤ OPEN_FILES }
    requires next { (entry : Option WaitingEntry) × (lines : List (List ℕ))
        × IsRunAt entry (top_of stack.old) stretch lines × HasRoomFor limits.old lines }
    requires numbers { maximum_of line_number stack.old.texts ≤ limits.old.lines }
    ensures passes { (entry : Option WaitingEntry) → (lines : List (List ℕ)) →
        IsRunAt entry (top_of stack.old) stretch lines →
        PassesTop stack.old stack.new limits.old limits.new lines }
    ensures keeps { KeepsTop stack.old stack.new }
    ensures more { limits.old.lines ≤ limits.new.lines }
    ensures numbers { maximum_of line_number stack.new.texts ≤ limits.new.lines }
{
    let top = stack.depth - 1;
    advance_slot(&mut stack.texts[top], limits, stretch);
}

impl<R: Drop> MergeState<R> {
    /// Takes these next lines.
    #[inline(always)]
    pub fn advance(&mut self, stretch: Stretch)
        requires { (lines : List (List ℕ)) × ComesNext self.old stretch lines }
        ensures emitted { (lines : List (List ℕ)) → ComesNext self.old stretch lines →
            EmitsBufferedLines self.old self.new (lines_next (top_of self.old.stack) lines) }
        ensures bytes { (lines : List (List ℕ)) → ComesNext self.old stretch lines →
            self.new.limits.bytes ≡ self.old.limits.bytes + length (with_newlines lines) }
        ensures depth { self.new.stack.depth ≡ self.old.stack.depth }
        ensures buffer { buffer_of (top_of self.new.stack) ≡ buffer_of (top_of self.old.stack) }
        ensures more { self.old.limits.lines < self.new.limits.lines }
    {
        advance_top(&mut self.stack, &mut self.limits, stretch);
    }
}
