// The next line of an open source, trimmed of trailing blanks.
ghost use Rattle.std.specs.Prelude.{◌≡◌, ◌≤◌, ◌<◌, ◌+◌, ◌^◌, ℕ, length, take, IfOk, IfErr, IfSome, OnSome, Some};
ghost use Rattle.cweb_files.specs.Shelves.{Observed};
ghost use Rattle.cweb_lines.specs.inner.LineCalls.{TakesFromSlot, bytes_left, FailsInLine, ReadsSource};
ghost use Rattle.cweb_lines.specs.inner.LineCalls.{TakesTrimmedOrEnds};
ghost use Rattle.cweb_lines.specs.Lines.{trimmed};
ghost use Rattle.cweb_lines.specs.surface.OpenedFileNames.{IsOneLine};
ghost use Rattle.cweb_lines.specs.Lines as spec;
ghost use Rattle.cweb_lines.specs.surface.OpenSources.{number_or_zero};
ghost use Rattle.cweb_lines.specs.inner.OpenSources.{line_number, DeepAt, NamesFile, stop_for, newline_bytes};

use crate::counters::TakenCounters;
use crate::cut::next_line;
use crate::open_source::{LineAt, OpenSource};
use crate::source::{LineFault, LineTermination, Source};
use crate::{LINE_LENGTH, Stop};
use cweb_files::{FileId, Place, Shelf};

fn is_blank(b: u8) -> bool
    ensures { result ≡ spec.is_blank b }
{
    matches!(b, b' ' | b'\t' | b'\r' | 11 | 12)
}

/// The length of a line without trailing blanks.
pub fn trimmed_length(line: &[u8]) -> usize
    ensures within { result ≤ length line.now }
    ensures trimmed { take result line.now ≡ trimmed line.now }
{
    let mut end = line.len();
    'blanks: while end > 0 {
        if !is_blank(line[end - 1]) {
            break 'blanks;
        }
        end -= 1;
    }
    end
}

fn stop_of(fault: LineFault, file: FileId) -> Stop
    ensures { result ≡ stop_for fault file }
{
    match fault {
        LineFault::Read => Stop::ReadFault(file),
        LineFault::TooLong => Stop::LineTooLong(file),
        LineFault::Memory => Stop::Memory,
    }
}

fn newline_size(taken: LineTermination) -> usize
    ensures value { result ≡ newline_bytes taken }
    ensures small { result ≤ 1 }
{
    match taken {
        LineTermination::Full => 1,
        LineTermination::Last | LineTermination::Ended => 0,
    }
}

// Takes the next line, trimmed, and returns its untrimmed size with the newline, if it has one.
#[inline(always)]
fn take_trimmed<S: Shelf>(
    shelf: &mut S,
    source: &mut Source<S::R>,
    line: &mut Vec<u8>,
) -> Result<Option<usize>, LineFault>
    requires count { (S.model shelf.old).failed + 1 < 2 ^ 64 }
    ensures reads { ReadsSource (S.model shelf.old) (S.model shelf.new)
        source.old source.new result }
    ensures taken { Observed (S.model shelf.old) (λ seen.
        IfOk result (λ size. TakesTrimmedOrEnds (bytes_left seen.left source.old) size
        line.new.items (bytes_left seen.left source.new))) }
    ensures fails { FailsInLine (S.model shelf.old) source.old result }
    ensures line { IfOk result (λ size. OnSome size (IsOneLine line.new.items)) }
    ensures gains { IfOk result (λ size. IfSome size (λ n. length line.new.items ≤ n)) }
{
    let taken = next_line(shelf, source, line)?;
    if let LineTermination::Ended = taken {
        return Ok(None);
    }
    let size = line.len() + newline_size(taken);
    line.truncate(trimmed_length(line));
    Ok(Some(size))
}

// Takes the next line, counts it and numbers it.
#[inline(always)]
fn take_line<S: Shelf>(
    shelf: &mut S,
    text: &mut OpenSource<S::R>,
    limits: &mut TakenCounters,
    line: &mut Vec<u8>,
) -> Result<Option<LineAt>, Stop>
    requires count { (S.model shelf.old).failed + 1 < 2 ^ 64 }
    requires number { text.old.line ≤ limits.old.lines }
    ensures takes { TakesFromSlot (S.model shelf.old) (S.model shelf.new)
        (Some text.old) (Some text.new) limits.old limits.new line.new.items result }
    ensures names { IfErr result (λ stop. NamesFile text.old.file stop) }
{
    let taken = match take_trimmed(shelf, &mut text.source, line) {
        Ok(taken) => taken,
        Err(fault) => return Err(stop_of(fault, text.file)),
    };
    let Some(size) = taken else {
        return Ok(None);
    };
    limits.add(size)?;
    text.line += 1;
    Ok(Some(LineAt {
        place: Place {
            file: text.file,
            line: text.line,
        },
        depth: text.depth,
        may_match: text.may_match,
    }))
}

/// Takes the next line of a slot's source, if it has one.
#[inline(always)]
pub fn take_from<S: Shelf>(
    shelf: &mut S,
    slot: &mut Option<OpenSource<S::R>>,
    limits: &mut TakenCounters,
    line: &mut Vec<u8>,
) -> Result<Option<LineAt>, Stop>
    requires count { (S.model shelf.old).failed + 1 < 2 ^ 64 }
    requires number { number_or_zero line_number slot.old ≤ limits.old.lines }
    ensures takes { TakesFromSlot (S.model shelf.old) (S.model shelf.new) slot.old slot.new
        limits.old limits.new line.new.items result }
    ensures deep { (place : ℕ) → DeepAt place slot.old →
        DeepAt place slot.new × IfOk result (λ at. IfSome at (λ a. place < a.depth)) }
{
    match slot {
        Some(text) => take_line(shelf, text, limits, line),
        None => Ok(None),
    }
}
