// A reader with its buffer, and how a line ended.
ghost use Rattle.std.specs.Prelude.{◌≡◌, ◌≤◌, ◌<◌, length, IfOk};
ghost use Rattle.cweb_lines.specs.inner.Finding.{byte_before};
ghost use Rattle.cweb_lines.specs.declared.source.LineFault.TheVariants.{Memory};

use std::alloc::{AllocError, Global};

/// The size of the buffer of a source that was just opened, and so of its first read, in bytes.
const FIRST_SIZE: usize = 4096;

/// The size of the buffer of a longer file, and so of its reads.
const BUFFER_SIZE: usize = 65536;

/// Why a line could not be taken.
#[derive(Clone, Copy)]
pub enum LineFault {
    Read,
    /// It has more than `LINE_LENGTH` bytes.
    TooLong,
    Memory,
}

impl From<AllocError> for LineFault {
    ghost from_gives = { λ _ e. e ≡ Memory };

    fn from(_: AllocError) -> Self {
        LineFault::Memory
    }
}

/// How a line ended.
#[derive(Clone, Copy)]
pub enum LineTermination {
    /// There is no more line.
    Ended,
    /// It is the last line and has no newline.
    Last,
    /// It has a newline.
    Full,
}

/// A reader and its buffer. The bytes from `start` to `end` were read and not yet taken.
#[derive(Drop)]
pub struct Source<R: Drop> {
    // Boxed, so that the size of an array of open sources doesn't depend on the reader's type.
    pub reader: Box<R>,
    pub buffer: Vec<u8>,
    pub start: usize,
    pub end: usize,
    /// The end of the last whole line in the buffer: just after the last newline, or 0 if it has none.
    pub lines_end: usize,
    ghost ordered: { start ≤ end },
    ghost within: { end ≤ length buffer.items },
    ghost some: { 0 < length buffer.items },
    ghost whole: { lines_end ≤ end },
    ghost newline: { byte_before buffer.items lines_end ≡ 10 },
}

impl<R: Drop> Source<R> {
    ghost use Rattle.cweb_lines.specs.surface.OpenSources.{buffered};
    ghost use Rattle.std.specs.Prelude.{[]};

    /// Nothing is read yet. It allocates a small buffer, since most included files are short.
    pub fn new(alloc: Global, reader: R) -> Result<Self, AllocError>
        ensures reader { IfOk result (λ source. source.reader.value ≡ reader) }
        ensures pending { IfOk result (λ source. buffered source ≡ []) }
    {
        let buffer = vec![in alloc; 0; FIRST_SIZE]?;
        Ok(Source {
            reader: Box::new(alloc, reader)?,
            buffer,
            start: 0,
            end: 0,
            lines_end: 0,
        })
    }

    /// Forgets the bytes in the buffer, which were all taken. If the last read filled a small buffer, it becomes larger,
    /// unless memory is refused.
    pub fn clear(&mut self)
        requires taken { self.old.start ≡ self.old.end }
        ensures reader { self.new.reader ≡ self.old.reader }
        ensures empty { self.new.start ≡ self.new.end }
        ensures no_line { self.new.lines_end ≡ 0 }
    {
        self.lines_end = 0;
        if self.end == self.buffer.len() && self.end < BUFFER_SIZE {
            let larger = vec![in *self.buffer.allocator(); 0; BUFFER_SIZE];
            if let Ok(buffer) = larger {
                self.buffer = buffer;
            }
        }
    }
}
