// Takes lines in order.
ghost use Rattle.std.specs.Prelude.{◌≡◌, ◌≤◌, ◌<◌, ◌+◌, [], IfOk, OnOk, length};
ghost use Rattle.cweb_store.specs.surface.Tokens.{too_many};

use crate::reader::Reader;
use crate::reader::open::Open;
use crate::scanner::Scanner;
use crate::skipped::skipped_len;
use cweb_files::{FileId, Place};
use cweb_rules::Context;
use std::alloc::AllocError;

impl Reader {
    ghost use Rattle.std.specs.List.{prefix_len};
    ghost use Rattle.std.specs.Prelude.{true, false, IsTrue};
    ghost use Rattle.cweb_scan.specs.inner.MatchSteps.{is_skipped, reads_c};
    ghost use Rattle.cweb_scan.specs.inner.ReaderModel.{cost, gone_to, read_after, Between, source_ended, BeginsLine};
    ghost use Rattle.cweb_scan.specs.inner.ReaderModel.{HasLineRoom, TakesLine, weight};

    // Begins a line: the first one, or one after a newline. Returns the number of its bytes that a pending item takes.
    fn begin_line(&mut self, place: Place, line: &[u8]) -> Result<usize, AllocError>
        requires { HasLineRoom line.now self.old }
        ensures { IfOk result (λ n. BeginsLine place line.now n self.old self.new) }
    {
        if !self.begun {
            self.scanner = Scanner::new(self.alloc, place);
            self.item = Open::Between;
            self.begun = true;
            return Ok(0);
        }
        if self.is_pending() {
            return self.go_on(place, line);
        }
        self.scanner.end_line(place)?;
        Ok(0)
    }

    // Whether a line outside C text has no `@`, and is not the first.
    #[inline(always)]
    fn passes_by(&self, line: &[u8]) -> bool
        ensures text { IsTrue result → reads_c self.now.state.context ≡ false }
        ensures between { IsTrue result → self.now.item ≡ Between }
        ensures begun { IsTrue result → self.now.begun ≡ true }
        ensures plain { IsTrue result → prefix_len is_skipped line.now ≡ length line.now }
    {
        match self.scanner.context() {
            Context::Limbo | Context::TeX => {
                matches!(self.item, Open::Between) && self.begun && skipped_len(line) == line.len()
            }
            _ => false,
        }
    }

    // Moves to another line outside C text.
    #[inline(always)]
    fn go_to(&mut self, place: Place)
        ensures { self.new ≡ gone_to place self.old }
    {
        self.scanner.go_to(place);
    }

    /// Takes the next line and its place. Fast path: a line outside C text without `@` only changes the place.
    #[inline(always)]
    pub fn take_line(&mut self, place: Place, line: &[u8]) -> Result<(), AllocError>
        requires { HasLineRoom line.now self.old }
        ensures { OnOk result (TakesLine place line.now self.old self.new) }
    {
        if self.passes_by(line) {
            self.go_to(place);
            return Ok(());
        }
        self.take_any_line(place, line)
    }

    // Slow path of `take_line`, for any line.
    #[inline(never)]
    fn take_any_line(&mut self, place: Place, line: &[u8]) -> Result<(), AllocError>
        requires { HasLineRoom line.now self.old }
        ensures { OnOk result (TakesLine place line.now self.old self.new) }
    {
        let taken = self.begin_line(place, line)?;
        let (_, rest) = line.split_at(taken);
        self.take_bytes(rest)?;
        Ok(())
    }

    // Ends the source, and the pending item with it.
    fn end_source(&mut self) -> Result<(), AllocError>
        requires { cost self.old + 8 < too_many }
        ensures { OnOk result (self.new.state ≡ source_ended self.old) }
    {
        let kind = self.item;
        if !self.is_pending() {
            return Ok(());
        }
        self.item = Open::Between;
        self.scanner.take_whole(kind, &self.pending, &self.places)?;
        Ok(())
    }

    /// Ends the source after the last line.
    pub fn finish(mut self) -> Result<Scanner, AllocError>
        requires { cost self + 8 < too_many }
        ensures made { IfOk result (λ s. s ≡ (read_after self []).state) }
        ensures room { IfOk result (λ s. weight s ≤ cost self) }
    {
        if !self.begun {
            let place = Place {
                file: FileId(0),
                line: 0,
            };
            return Ok(Scanner::new(self.alloc, place));
        }
        self.end_source()?;
        let Reader {
            alloc: _,
            scanner,
            item: _,
            pending: _,
            places: _,
            begun: _,
        } = self;
        Ok(scanner)
    }
}
