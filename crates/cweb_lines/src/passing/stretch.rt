// Which buffered lines pass through.
ghost use Rattle.std.specs.Prelude.{◌≡◌, ◌≤◌, ◌+◌, ◌-◌, ℕ, List, IfSome, OnSome};
ghost use Rattle.cweb_lines.specs.inner.Ahead.{FitsLimits, FitsLimitsAt};
ghost use Rattle.cweb_lines.specs.inner.Passing.{Reaches, IsStretchOf, ComesNext, HasRoomFor, stretch_bytes, top_of};
ghost use Rattle.cweb_lines.specs.surface.MergeProgress.{pending_in};
ghost use Rattle.cweb_lines.specs.declared.limits.TheConstants.{LINES};

use crate::change::Stage;
use crate::counters::TakenCounters;
use crate::cut::newline_at;
use crate::include::is_include_line;
use crate::limits::LINE_LENGTH;
use crate::merge_state::MergeState;
use crate::open_source::OpenSource;
use crate::open_source::take::trimmed_length;
use crate::source::Source;
use crate::step::turning::begun_at;

/// Adjacent buffered lines that pass through. Only the last may have trailing blanks, so one copy prints them.
#[derive(Clone, Copy)]
pub struct Stretch {
    /// The end of the bytes that are printed, without the last newline.
    pub text: usize,
    /// The end of the lines, with the last newline.
    pub end: usize,
    /// The number of lines.
    pub lines: u32,
}

impl Stretch {
    // These lines and the next ones.
    pub(crate) fn then(self, next: Stretch) -> Stretch
        requires { self.lines + next.lines ≤ LINES }
        ensures text { result.text ≡ next.text }
        ensures end { result.end ≡ next.end }
        ensures lines { result.lines ≡ self.lines + next.lines }
    {
        Stretch {
            text: next.text,
            end: next.end,
            lines: self.lines + next.lines,
        }
    }
}

// The line from an offset on, if it was read whole and passes through.
#[inline(always)]
pub(crate) fn line_from<R: Drop>(
    source: &Source<R>,
    start: usize,
    stage: Stage,
    first: &[u8],
    may_match: bool,
) -> Option<Stretch>
    requires { start ≤ source.now.end }
    ensures line { IfSome result (λ s. Reaches (pending_in stage first.now) may_match
        source.now.buffer.items start source.now.end s) }
    ensures one { IfSome result (λ s. s.lines ≡ 1) }
{
    let pending = &source.buffer[start..source.end];
    let at = newline_at(pending)?;
    if at > LINE_LENGTH {
        return None;
    }
    let raw = &pending[..at];
    let length = trimmed_length(raw);
    let line = &raw[..length];
    if is_include_line(line) {
        return None;
    }
    if let Some(_) = begun_at(stage, first, may_match, line) {
        return None;
    }
    Some(Stretch {
        text: start + length,
        end: start + at + 1,
        lines: 1,
    })
}

// The next line of an open source, unless its buffer might exceed a limit.
#[inline(always)]
fn first_of<R: Drop>(
    text: &OpenSource<R>,
    stage: Stage,
    first: &[u8],
    limits: &TakenCounters,
) -> Option<Stretch>
    ensures lines { IfSome result (λ s. (lines : List (List ℕ))
        × IsStretchOf (pending_in stage first.now) text.now s lines × HasRoomFor limits.now lines) }
    ensures one { IfSome result (λ s. s.lines ≡ 1) }
    ensures fits { OnSome result (FitsLimits limits.now text.now) }
{
    let source = &text.source;
    if !limits.has_room(source.end - source.start) || source.start >= source.lines_end {
        return None;
    }
    line_from(source, source.start, stage, first, text.may_match)
}

impl<R: Drop> MergeState<R> {
    /// The next line, if it passes through. `None` is always allowed.
    #[inline(always)]
    pub fn first_passing(&self) -> Option<Stretch>
        ensures lines { IfSome result (λ s. (lines : List (List ℕ)) × ComesNext self.now s lines) }
        ensures one { IfSome result (λ s. s.lines ≡ 1) }
        ensures fits { OnSome result (FitsLimitsAt self.now.limits (top_of self.now.stack)) }
    {
        if let Stage::Seeking = self.stage {
            return None;
        }
        if self.stack.depth <= self.floor() {
            return None;
        }
        match &self.stack.texts[self.stack.depth - 1] {
            Some(text) => first_of(text, self.stage, &self.first, &self.limits),
            None => None,
        }
    }

    /// The bytes that are printed of the next lines, without the last newline.
    #[inline(always)]
    pub fn printed(&self, stretch: Stretch) -> &[u8]
        requires { (lines : List (List ℕ)) × ComesNext self.now stretch lines }
        ensures { result.now ≡ stretch_bytes (top_of self.now.stack) stretch }
    {
        match &self.stack.texts[self.stack.depth - 1] {
            Some(text) => &text.source.buffer[text.source.start..stretch.text],
            None => &[],
        }
    }
}
