// Appends lines that pass through to a caller's buffer.
ghost use Rattle.std.specs.Prelude.{◌≡◌, ◌<◌, ◌++◌, ◌∷◌, [], ℕ, List, length, OnOk, OnErr};
ghost use Rattle.cweb_lines.specs.inner.Ahead.{IsAhead, LooksAhead};
ghost use Rattle.cweb_lines.specs.inner.Passing.{AppendsPassedLines, ComesNext, OnlyLastExceeds};

use crate::merger::ahead::line_after;
use crate::{Ahead, Merger};
use cweb_files::Shelf;
use std::alloc::AllocError;

impl<S: Shelf> Merger<S> {
    /// Appends lines that pass through, while the buffer has fewer than `room` bytes. A refused line is still to come.
    /// Changes whose lines are in the buffers are applied, so their new lines are appended, too.
    pub(crate) fn pass_lines(&mut self, buffer: &mut Vec<u8>, room: usize) -> Result<(), AllocError>
        ensures passes { AppendsPassedLines room self.old.run self.new.run
            buffer.old.items buffer.new.items }
        ensures err { OnErr result (0 < room) }
    {
        'lines: while buffer.len() < room {
            let Some(first) = self.first_ahead() else {
                if self.run.pass_change(buffer, room)? {
                    continue 'lines;
                }
                break 'lines;
            };
            let ahead = self.ahead_up_to(first, room - buffer.len());
            append_line(buffer, self.run.printed(ahead.stretch))?;
            self.take_ahead(ahead);
        }
        Ok(())
    }

    // The next line and lines after it, until they have `room` bytes.
    #[inline(always)]
    fn ahead_up_to(&self, first: Ahead, room: usize) -> Ahead
        requires looks { LooksAhead self.now.run [] first }
        requires ahead { IsAhead self.now.run first }
        ensures lines { (lines : List (List ℕ)) × ComesNext self.now.run result.stretch lines
            × OnlyLastExceeds room lines × (0 < length lines) }
        ensures ahead { IsAhead self.now.run result }
    {
        let run = &self.run;
        let Some(text) = &run.stack.texts[run.stack.depth - 1] else {
            return first;
        };
        let mut ahead = first;
        'lines: while ahead.stretch.text + 1 == ahead.stretch.end
            && ahead.stretch.end - text.source.start < room
        {
            let Some(next) = line_after(text, run.stage, &run.first, ahead.stretch) else {
                break 'lines;
            };
            ahead = next;
        }
        ahead
    }
}

// Appends a line and its newline, or neither. The room for both is requested at once, so that the buffer grows once.
#[inline(always)]
pub(crate) fn append_line(buffer: &mut Vec<u8>, line: &[u8]) -> Result<(), AllocError>
    ensures ok { OnOk result (buffer.new.items ≡ buffer.old.items ++ line.now ++ 10 ∷ []) }
    ensures err { OnErr result (buffer.new.items ≡ buffer.old.items) }
{
    buffer.reserve(line.len() + 1)?;
    buffer.extend_from_slice(line)?;
    buffer.push_reserved(b'\n');
    Ok(())
}
