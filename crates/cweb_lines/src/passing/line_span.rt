// Lines in the buffer.
ghost use Rattle.std.specs.Prelude.{◌≡◌, ℕ, List};
ghost use Rattle.cweb_lines.specs.inner.Ahead.{line_span_at};
ghost use Rattle.cweb_lines.specs.inner.Passing.{ComesNext, top_of};

use crate::merge_state::MergeState;
use crate::passing::stretch::Stretch;
use cweb_files::Place;

/// A line in the buffer: its place in its file, and its range in the buffer.
#[derive(Clone, Copy, Debug, PartialEq, Eq)]
pub struct LineSpan {
    pub place: Place,
    pub(crate) from: usize,
    pub(crate) to: usize,
}

impl<R: Drop> MergeState<R> {
    // The place and range of the next line.
    #[inline(always)]
    pub(crate) fn line_at(&self, stretch: Stretch) -> Option<LineSpan>
        requires { (lines : List (List ℕ)) × ComesNext self.now stretch lines }
        ensures { result ≡ line_span_at (top_of self.now.stack) stretch }
    {
        match &self.stack.texts[self.stack.depth - 1] {
            Some(text) => Some(LineSpan {
                place: Place {
                    file: text.file,
                    line: text.line + 1,
                },
                from: text.source.start,
                to: stretch.text,
            }),
            None => None,
        }
    }
}
