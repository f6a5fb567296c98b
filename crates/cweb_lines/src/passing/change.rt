// Changes whose lines are in the buffers. They are applied without a read.
ghost use Rattle.std.specs.Prelude.{◌≡◌, ◌<◌, IfSome, Some, length};
ghost use Rattle.cweb_lines.specs.Change as spec;
ghost use Rattle.cweb_lines.specs.inner.Passing.{stretch_bytes, top_of};
ghost use Rattle.cweb_lines.specs.inner.PassingChanges.{HasRoomForTwo, IsNextLine, IsOldSide, PassesChange};
ghost use Rattle.cweb_lines.specs.inner.PassingChanges.{PassesSilently};

use crate::change::code::{Code, change_code};
use crate::change::{Change, Stage};
use crate::limits::LINE_LENGTH;
use crate::merge_state::MergeState;
use crate::passing::advance::{advance_slot, advance_top};
use crate::passing::next::{depth_in, next_in, text_in};
use crate::passing::old_side::{OldSideAhead, old_side_ahead};
use crate::passing::stretch::{Stretch, line_from};
use crate::writing::pass::append_line;
use cweb_files::Place;
use std::alloc::AllocError;

/// The size of two lines of the maximum length.
const TWO_LINES: usize = 2 * (LINE_LENGTH + 1);

impl<R: Drop> MergeState<R> {
    // Takes a line of a new side, or its end.
    fn pass_new(
        &mut self,
        change: Change,
        buffer: &mut Vec<u8>,
        room: usize,
    ) -> Result<bool, AllocError>
        requires changing { self.old.stage ≡ Stage.Changing change }
        requires below { self.old.stack.depth ≡ change.below }
        requires two { HasRoomForTwo self.old.limits }
        requires more { length buffer.old.items < room }
        ensures { PassesChange room self.old self.new buffer.old.items buffer.new.items result }
    {
        let Some(next) = next_in(&self.change) else {
            return Ok(false);
        };
        let line = text_in(&self.change, next);
        match change_code(line) {
            None => {
                append_line(buffer, line)?;
                self.take_change_ahead(next);
                Ok(true)
            }
            Some(Code::EndSide) => {
                self.take_change_ahead(next);
                self.stage = Stage::Seeking;
                Ok(true)
            }
            Some(_) => Ok(false),
        }
    }

    // Takes a line of the search for an entry.
    fn pass_search(&mut self) -> Result<bool, AllocError>
        requires seeking { self.old.stage ≡ Stage.Seeking }
        requires two { HasRoomForTwo self.old.limits }
        ensures { PassesSilently self.old self.new result }
    {
        let Some(next) = next_in(&self.change) else {
            return Ok(false);
        };
        match change_code(text_in(&self.change, next)) {
            None => {
                self.take_change_ahead(next);
                Ok(true)
            }
            Some(Code::OldSide) => self.pass_first(next),
            Some(_) => Ok(false),
        }
    }

    // Takes `@x` and a first old line after it. The entry then waits.
    fn pass_first(&mut self, begin: Stretch) -> Result<bool, AllocError>
        requires seeking { self.old.stage ≡ Stage.Seeking }
        requires two { HasRoomForTwo self.old.limits }
        requires next { IsNextLine self.old.change begin }
        requires begins { spec.change_code (stretch_bytes self.old.change begin) ≡ Some Code.OldSide }
        ensures { PassesSilently self.old self.new result }
    {
        let Some(text) = &self.change else {
            return Ok(false);
        };
        let source = &text.source;
        if begin.end >= source.lines_end {
            return Ok(false);
        }
        let Some(next) = line_from(source, begin.end, Stage::Done, &[], text.may_match) else {
            return Ok(false);
        };
        let first = &source.buffer[begin.end..next.text];
        if first.is_empty() || change_code(first).is_some() {
            return Ok(false);
        }
        let place = Place {
            file: text.file,
            line: text.line + 1,
        };
        self.first = Vec::from_slice(self.alloc, first)?;
        advance_slot(&mut self.change, &mut self.limits, begin.then(next));
        self.stage = Stage::Waiting(place);
        Ok(true)
    }

    // The old side of the entry that waits, if the next lines of the web equal it.
    fn old_side(&self) -> Option<OldSideAhead>
        ensures some { IfSome result (λ ahead. 0 < self.now.stack.depth) }
        ensures is { IfSome result (λ ahead.
            IsOldSide (top_of self.now.stack) self.now.change self.now.first.items ahead) }
    {
        if self.stack.depth == 0 {
            return None;
        }
        let top = &self.stack.texts[self.stack.depth - 1];
        old_side_ahead(top, &self.change, &self.first)
    }

    // Takes the old side of the entry that waits, or nothing: no stage is for the middle of an old side.
    fn pass_old(&mut self, begin: Place) -> Result<bool, AllocError>
        requires waiting { self.old.stage ≡ Stage.Waiting begin }
        requires two { HasRoomForTwo self.old.limits }
        ensures { PassesSilently self.old self.new result }
    {
        let Some(ahead) = self.old_side() else {
            return Ok(false);
        };
        let depth = depth_in(&self.stack.texts[self.stack.depth - 1]);
        advance_top(&mut self.stack, &mut self.limits, ahead.web.all);
        advance_slot(&mut self.change, &mut self.limits, ahead.side.all);
        self.stage = Stage::Changing(Change {
            begin,
            below: self.stack.depth,
            depth,
        });
        Ok(true)
    }

    /// Takes lines of a change that are in the buffers, and appends its new lines. Returns whether any was taken.
    pub fn pass_change(&mut self, buffer: &mut Vec<u8>, room: usize) -> Result<bool, AllocError>
        requires more { length buffer.old.items < room }
        ensures { PassesChange room self.old self.new buffer.old.items buffer.new.items result }
    {
        if !self.limits.has_room(TWO_LINES) {
            return Ok(false);
        }
        match self.stage {
            Stage::Done => Ok(false),
            Stage::Seeking => self.pass_search(),
            Stage::Waiting(begin) => self.pass_old(begin),
            Stage::Changing(change) => {
                if self.stack.depth != change.below {
                    return Ok(false);
                }
                self.pass_new(change, buffer, room)
            }
        }
    }
}
