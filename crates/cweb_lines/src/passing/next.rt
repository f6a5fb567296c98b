// The next lines of sources that are in their buffers, one by one.
ghost use Rattle.std.specs.Prelude.{◌≡◌, ◌≤◌, ◌+◌, ◌++◌, ◌∷◌, [], ℕ, List, IfSome};
ghost use Rattle.cweb_lines.specs.inner.Passing.{stretch_bytes};
ghost use Rattle.cweb_lines.specs.inner.PassingChanges.{AreAhead, IsNextLine, TakesChangeLine, last_bytes};
ghost use Rattle.cweb_lines.specs.surface.OpenSources.{matches_at, number_or_zero, source_depth};
ghost use Rattle.cweb_lines.specs.declared.limits.TheConstants.{BYTES, LINES};

use crate::change::Stage;
use crate::limits::LINE_LENGTH;
use crate::merge_state::MergeState;
use crate::open_source::OpenSource;
use crate::passing::advance::advance_slot;
use crate::passing::stretch::{Stretch, line_from};

/// The next line of a slot's source, if it is in the buffer and no include line.
pub fn next_in<R: Drop>(slot: &Option<OpenSource<R>>) -> Option<Stretch>
    ensures { IfSome result (λ s. IsNextLine slot.now s) }
{
    let Some(text) = slot else {
        return None;
    };
    if text.source.start >= text.source.lines_end {
        return None;
    }
    line_from(
        &text.source,
        text.source.start,
        Stage::Done,
        &[],
        text.may_match,
    )
}

/// Its bytes, trimmed.
pub fn text_in<R: Drop>(slot: &Option<OpenSource<R>>, next: Stretch) -> &[u8]
    requires { IsNextLine slot.now next }
    ensures { result.now ≡ stretch_bytes slot.now next }
{
    match slot {
        Some(text) => &text.source.buffer[text.source.start..next.text],
        None => &[],
    }
}

/// Whether lines of a slot's source may match an entry.
pub fn matches_in<R: Drop>(slot: &Option<OpenSource<R>>) -> bool
    ensures { result ≡ matches_at slot.now }
{
    match slot {
        Some(text) => text.may_match,
        None => false,
    }
}

/// The depth of the lines of a slot's source.
pub fn depth_in<R: Drop>(slot: &Option<OpenSource<R>>) -> usize
    ensures { result ≡ number_or_zero source_depth slot.now }
{
    match slot {
        Some(text) => text.depth,
        None => 0,
    }
}

/// Next lines of a slot's source that are in its buffer. None is an include line. Each may have trailing blanks, since
/// they aren't printed. Together they have at most the bytes of one line of the maximum length.
#[derive(Clone, Copy)]
pub struct LinesAhead {
    pub all: Stretch,
    /// Where the last of them begins.
    pub last: usize,
}

/// The next line alone. `None` is always allowed.
pub fn line_ahead<R: Drop>(slot: &Option<OpenSource<R>>) -> Option<LinesAhead>
    ensures { IfSome result (λ lines. (raw : List ℕ) × AreAhead slot.now lines [] raw) }
{
    let all = next_in(slot)?;
    match slot {
        Some(text) => Some(LinesAhead {
            all,
            last: text.source.start,
        }),
        None => None,
    }
}

/// These lines and the one after them. `None` is always allowed.
pub fn one_more_ahead<R: Drop>(
    slot: &Option<OpenSource<R>>,
    lines: LinesAhead,
) -> Option<LinesAhead>
    requires { (before : List (List ℕ)) × (raw : List ℕ) × AreAhead slot.now lines before raw }
    ensures more { IfSome result (λ more. (before : List (List ℕ)) (raw : List ℕ) →
        AreAhead slot.now lines before raw →
        (next : List ℕ) × AreAhead slot.now more (before ++ raw ∷ []) next) }
    ensures count { IfSome result (λ more. more.all.lines ≡ lines.all.lines + 1) }
{
    let Some(text) = slot else {
        return None;
    };
    let all = lines.all;
    if all.end >= text.source.lines_end {
        return None;
    }
    let next = line_from(&text.source, all.end, Stage::Done, &[], text.may_match)?;
    if next.end - text.source.start > LINE_LENGTH + 1 {
        return None;
    }
    Some(LinesAhead {
        all: all.then(next),
        last: all.end,
    })
}

/// The last of these lines, trimmed.
pub fn last_ahead<R: Drop>(slot: &Option<OpenSource<R>>, lines: LinesAhead) -> &[u8]
    requires { (before : List (List ℕ)) × (raw : List ℕ) × AreAhead slot.now lines before raw }
    ensures { result.now ≡ last_bytes slot.now lines }
{
    match slot {
        Some(text) => &text.source.buffer[lines.last..lines.all.text],
        None => &[],
    }
}

impl<R: Drop> MergeState<R> {
    /// Takes the next line of the change file.
    pub fn take_change_ahead(&mut self, next: Stretch)
        requires next { IsNextLine self.old.change next }
        requires few { self.old.limits.lines + 1 ≤ LINES }
        requires small { self.old.limits.bytes + 1048576 ≤ BYTES }
        ensures { TakesChangeLine self.old self.new next }
    {
        advance_slot(&mut self.change, &mut self.limits, next);
    }
}
