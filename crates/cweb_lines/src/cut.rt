// The next line of a source, however reads split it.
ghost use Rattle.std.specs.Prelude.{◌≡◌, ◌≤◌, ◌<◌, ◌+◌, ◌^◌, ◌++◌, [], length, take, IfOk, OnOk, IsErrOf};
ghost use Rattle.cweb_files.specs.Shelves.{Observed};
ghost use Rattle.cweb_lines.specs.surface.OpenedFileNames.{HasNoNewline};
ghost use Rattle.cweb_lines.specs.inner.Finding.{IsNewlineAt, byte_before};
ghost use Rattle.cweb_lines.specs.inner.LineCalls.{bytes_left, TakesRawLine, IsLongerThan};
ghost use Rattle.cweb_lines.specs.inner.LineCalls.{FailsInLine, ReadsSource, TakesFromBuffer};
ghost use Rattle.cweb_lines.specs.surface.OpenSources.{buffered};

use crate::limits::LINE_LENGTH;
use crate::source::{LineFault, LineTermination, Source};
use cweb_files::Shelf;
use memchr::{memchr, memrchr};
use std::simd::prelude::*;

// The index of the first newline among the first 32 bytes.
#[inline(always)]
fn newline_near(bytes: &[u8]) -> Option<usize>
    requires { 32 ≤ length bytes.now }
    ensures { IsNewlineAt (take 32 bytes.now) result }
{
    let lanes = u8x32::from_slice(bytes);
    let marked = lanes.simd_eq(u8x32::splat(b'\n')).to_bitmask();
    if marked == 0 {
        return None;
    }
    Some(marked.trailing_zeros() as usize)
}

/// The index of the first newline. It tests 32 bytes at a time, and most lines are shorter.
pub fn newline_at(bytes: &[u8]) -> Option<usize>
    ensures { IsNewlineAt bytes.now result }
{
    let mut rest = bytes;
    'runs: while 32 <= rest.len() {
        if let Some(at) = newline_near(rest) {
            return Some(bytes.len() - rest.len() + at);
        }
        rest = rest.split_at(32).1;
    }
    let at = memchr(b'\n', rest)?;
    Some(bytes.len() - rest.len() + at)
}

// Appends bytes to a line, unless it gets too long.
fn extend(line: &mut Vec<u8>, prefix: &[u8]) -> Result<(), LineFault>
    requires { length line.old.items ≤ LINE_LENGTH }
    ensures ok { OnOk result (line.new.items ≡ line.old.items ++ prefix.now) }
    ensures within { length line.new.items ≤ LINE_LENGTH }
    ensures read { IsErrOf result LineFault.Read → ⊥ }
    ensures too_long { IsErrOf result LineFault.TooLong →
        LINE_LENGTH < length line.old.items + length prefix.now }
{
    if prefix.len() > LINE_LENGTH - line.len() {
        return Err(LineFault::TooLong);
    }
    line.extend_from_slice(prefix)?;
    Ok(())
}

// Takes the buffered bytes up to a newline, and returns whether there was one.
fn take_buffered<R: Drop>(source: &mut Source<R>, line: &mut Vec<u8>) -> Result<bool, LineFault>
    requires { length line.old.items ≤ LINE_LENGTH }
    ensures reader { source.new.reader.value ≡ source.old.reader.value }
    ensures taken { IfOk result (λ full. TakesFromBuffer
        (buffered source.old) line.old.items full line.new.items (buffered source.new)) }
    ensures within { length line.new.items ≤ LINE_LENGTH }
    ensures read { IsErrOf result LineFault.Read → ⊥ }
    ensures too_long { HasNoNewline line.old.items → IsErrOf result LineFault.TooLong →
        IsLongerThan LINE_LENGTH (line.old.items ++ buffered source.old) }
{
    let pending = &source.buffer[source.start..source.end];
    match newline_at(pending) {
        Some(at) => {
            extend(line, &pending[..at])?;
            source.start += at + 1;
            Ok(true)
        }
        None => {
            extend(line, pending)?;
            source.start = source.end;
            Ok(false)
        }
    }
}

// The end of the last whole line.
fn lines_end(bytes: &[u8]) -> usize
    ensures within { result ≤ length bytes.now }
    ensures newline { byte_before bytes.now result ≡ 10 }
{
    match memrchr(b'\n', bytes) {
        Some(at) => at + 1,
        None => 0,
    }
}

// Reads into the buffer if it is empty.
fn refill<S: Shelf>(shelf: &mut S, source: &mut Source<S::R>) -> Result<(), LineFault>
    requires count { (S.model shelf.old).failed + 1 < 2 ^ 64 }
    ensures reads { ReadsSource (S.model shelf.old) (S.model shelf.new)
        source.old source.new result }
    ensures read { IsErrOf result LineFault.TooLong → ⊥ }
    ensures needed { IsErrOf result LineFault.Read → source.old.start ≡ source.old.end }
    ensures kept { source.old.start < source.old.end → source.new ≡ source.old }
    ensures same { Observed (S.model shelf.old) (λ seen.
        OnOk result (bytes_left seen.left source.new ≡ bytes_left seen.left source.old)) }
    ensures end { Observed (S.model shelf.old) (λ seen.
        OnOk result (source.new.start ≡ source.new.end → bytes_left seen.left source.new ≡ [])) }
{
    if source.start < source.end {
        return Ok(());
    }
    source.clear();
    match shelf.read(&mut source.reader, &mut source.buffer) {
        Ok(n) => {
            source.start = 0;
            source.end = n;
            source.lines_end = lines_end(&source.buffer[..n]);
            Ok(())
        }
        Err(_) => Err(LineFault::Read),
    }
}

/// Takes the next line, up to a newline or the end, into `line`, without the newline.
pub fn next_line<S: Shelf>(
    shelf: &mut S,
    source: &mut Source<S::R>,
    line: &mut Vec<u8>,
) -> Result<LineTermination, LineFault>
    requires { (S.model shelf.old).failed + 1 < 2 ^ 64 }
    ensures reads { ReadsSource (S.model shelf.old) (S.model shelf.new)
        source.old source.new result }
    ensures taken { Observed (S.model shelf.old) (λ seen.
        IfOk result (λ taken. TakesRawLine (bytes_left seen.left source.old) taken line.new.items
        (bytes_left seen.left source.new))) }
    ensures fails { FailsInLine (S.model shelf.old) source.old result }
    ensures within { length line.new.items ≤ LINE_LENGTH }
    ensures clean { OnOk result (HasNoNewline line.new.items) }
{
    line.clear();
    'pieces: loop {
        refill(shelf, source)?;
        if source.start == source.end {
            return Ok(if line.is_empty() {
                LineTermination::Ended
            } else {
                LineTermination::Last
            });
        }
        if take_buffered(source, line)? {
            return Ok(LineTermination::Full);
        }
    }
}
