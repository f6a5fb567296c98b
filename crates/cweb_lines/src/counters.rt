// How much was taken from all files.
ghost use Rattle.std.specs.Prelude.{◌≡◌, ◌≤◌, ◌<◌, ◌+◌, ◌⊎◌, IsTrue, IfErr, OnOk, OnErr};

use crate::{BYTES, LINES, Stop};

/// The number of lines and bytes that were taken from all files so far, newlines included.
#[derive(Drop)]
pub struct TakenCounters {
    pub lines: u32,
    pub bytes: u64,
    ghost few: { lines ≤ 16777216 },
    ghost small: { bytes ≤ 1073741824 },
}

impl TakenCounters {
    /// No line and no byte.
    pub fn new() -> Self
        ensures lines { result.lines ≡ 0 }
        ensures bytes { result.bytes ≡ 0 }
    {
        TakenCounters { lines: 0, bytes: 0 }
    }

    /// Counts a line of `size` bytes, its newline included, unless it exceeds a limit.
    pub fn add(&mut self, size: usize) -> Result<(), Stop>
        ensures lines { OnOk result (self.new.lines ≡ self.old.lines + 1) }
        ensures bytes { OnOk result (self.new.bytes ≡ self.old.bytes + size) }
        ensures err { OnErr result (self.new ≡ self.old) }
        ensures stop { IfErr result (λ stop. stop ≡ Stop.TooMuchText) }
        ensures passed { OnErr result ((self.old.lines ≡ LINES) ⊎ (BYTES < self.old.bytes + size)) }
    {
        if size as u64 > BYTES - self.bytes || self.lines == LINES {
            return Err(Stop::TooMuchText);
        }
        self.lines += 1;
        self.bytes += size as u64;
        Ok(())
    }

    /// Whether any lines of `size` bytes in total are within the limits. A line has at least one byte.
    pub fn has_room(&self, size: usize) -> bool
        ensures lines { IsTrue result → self.now.lines + size ≤ LINES }
        ensures bytes { IsTrue result → self.now.bytes + size ≤ BYTES }
        ensures room { self.now.lines + size ≤ LINES → self.now.bytes + size ≤ BYTES →
            IsTrue result }
    {
        size as u64 <= BYTES - self.bytes && size as u64 <= (LINES - self.lines) as u64
    }

    /// Counts lines of `size` bytes in total that are within the limits.
    pub fn add_all(&mut self, lines: u32, size: usize)
        requires few { self.old.lines + lines ≤ LINES }
        requires small { self.old.bytes + size ≤ BYTES }
        ensures lines { self.new.lines ≡ self.old.lines + lines }
        ensures bytes { self.new.bytes ≡ self.old.bytes + size }
    {
        self.lines += lines;
        self.bytes += size as u64;
    }
}
