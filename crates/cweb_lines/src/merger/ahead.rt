// Lookahead: buffered lines are looked at one after another, and then taken all at once.
ghost use Rattle.std.specs.Prelude.{◌≡◌, ◌≤◌, ◌+◌, ℕ, List, [], IfSome, OnSome, None, Some};
ghost use Rattle.cweb_lines.specs.inner.Ahead.{FitsLimits, IsAhead, LooksAhead, LooksAheadIn, TakesLines};
ghost use Rattle.cweb_lines.specs.inner.Passing.{ComesNext, IsStretchOf};
ghost use Rattle.cweb_lines.specs.surface.MergeProgress.{pending_in};
ghost use Rattle.cweb_lines.specs.declared.counters.TakenCounters.{TakenCounters};

use crate::change::Stage;
use crate::open_source::OpenSource;
use crate::passing::stretch::{Stretch, line_from};
use crate::{LineSpan, Merger};
use cweb_files::{Place, Shelf};

/// Next lines that were not taken yet: the last of them, and all of them.
#[derive(Clone, Copy)]
pub struct Ahead {
    pub line: LineSpan,
    pub(crate) stretch: Stretch,
}

impl<S: Shelf> Merger<S> {
    ghost use Rattle.cweb_lines.specs.surface.MergerCalls.{stop_in};

    /// Fast path of `next_line`: the next line if it is in the buffer and passes through. It is not taken yet. `None` is always
    /// allowed: the caller falls back to `next_line`.
    #[inline(always)]
    pub fn first_ahead(&self) -> Option<Ahead>
        ensures looks { IfSome result (λ ahead. LooksAhead self.now.run [] ahead) }
        ensures ahead { IfSome result (λ ahead. IsAhead self.now.run ahead) }
        ensures running { OnSome result (stop_in self.now ≡ None) }
    {
        if let Some(_) = self.run.stopped {
            return None;
        }
        let stretch = self.run.first_passing()?;
        let line = self.run.line_at(stretch)?;
        Some(Ahead { line, stretch })
    }

    /// The line after these next lines, added to them, if it passes through and they have no trailing blanks. After
    /// `None` take the lines and call `next_line`.
    #[inline(always)]
    pub fn next_ahead(&self, before: Ahead) -> Option<Ahead>
        requires { IsAhead self.now.run before }
        ensures looks { IfSome result (λ ahead. (lines : List (List ℕ)) →
            ComesNext self.now.run before.stretch lines → LooksAhead self.now.run lines ahead) }
        ensures ahead { IfSome result (λ ahead. IsAhead self.now.run ahead) }
    {
        let stretch = before.stretch;
        if stretch.text + 1 != stretch.end {
            return None;
        }
        let run = &self.run;
        match &run.stack.texts[run.stack.depth - 1] {
            Some(text) => line_after(text, run.stage, &run.first, stretch),
            None => None,
        }
    }

    /// Takes and counts these next lines.
    #[inline(always)]
    pub fn take_ahead(&mut self, ahead: Ahead)
        requires { IsAhead self.old.run ahead }
        ensures { (lines : List (List ℕ)) → ComesNext self.old.run ahead.stretch lines →
            TakesLines lines self.old.run self.new.run }
    {
        self.run.advance(ahead.stretch);
    }
}

// The line of a source after these ones.
#[inline(always)]
pub(crate) fn line_after<R: Drop>(
    text: &OpenSource<R>,
    stage: Stage,
    first: &[u8],
    before: Stretch,
) -> Option<Ahead>
    requires before { (lines : List (List ℕ))
        × IsStretchOf (pending_in stage first.now) text.now before lines }
    requires fits { (limits : TakenCounters) × FitsLimits limits text.now
        × (text.now.line ≤ limits.lines) }
    requires joins { before.text + 1 ≡ before.end }
    ensures { IfSome result (λ ahead. (lines : List (List ℕ)) →
        IsStretchOf (pending_in stage first.now) text.now before lines →
        LooksAheadIn (pending_in stage first.now) (Some text.now) lines ahead) }
{
    if before.end >= text.source.lines_end {
        return None;
    }
    let next = line_from(&text.source, before.end, stage, first, text.may_match)?;
    Some(Ahead {
        line: LineSpan {
            place: Place {
                file: text.file,
                line: text.line + before.lines + 1,
            },
            from: before.end,
            to: next.text,
        },
        stretch: before.then(next),
    })
}
