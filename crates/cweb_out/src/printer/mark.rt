// Line marks (`#line`).
ghost use Rattle.std.specs.Prelude.{◌≡◌, ◌<◌, ◌+◌, ◌^◌, ◌++◌};
ghost use Rattle.std.specs.List.{list_any};
ghost use Rattle.cweb_files.specs.surface.Writes.{Wrote};
ghost use Rattle.cweb_out.specs.Printing.{mark_line, quoted, quoted_byte};
ghost use Rattle.cweb_out.specs.inner.Edges.{file_name_end, wants_backslash};

use crate::chunks::{ChunkSink, write_three};
use cweb_files::SinkFault;
use itoa::Buffer;

/// Writes `begin` and then a line mark.
#[inline(always)]
pub(crate) fn write_mark<W: ChunkSink>(
    begin: &[u8],
    name: &[u8],
    line: u32,
    out: &mut W,
) -> Result<(), SinkFault>
    requires { (W.model out.old).failed + 1 < 2 ^ 64 }
    ensures wrote { Wrote (begin.now ++ mark_line name.now line)
        (W.model out.old) (W.model out.new) result }
    ensures borrows { W.borrows out.new ≡ W.borrows out.old }
{
    let mut digits = Buffer::new();
    write_three(out, begin, b"#line ", digits.format(line).as_bytes())?;
    write_file_name(name, out)
}

// Writes the end of a mark, from the blank after the line number on.
#[inline(always)]
fn write_file_name<W: ChunkSink>(name: &[u8], out: &mut W) -> Result<(), SinkFault>
    requires { (W.model out.old).failed + 1 < 2 ^ 64 }
    ensures wrote { Wrote (file_name_end name.now) (W.model out.old) (W.model out.new) result }
    ensures borrows { W.borrows out.new ≡ W.borrows out.old }
{
    out.put(b" \"")?;
    write_quoted(name, out)?;
    out.put(b"\"\n")
}

// Few names have a quote or a backslash.
#[inline(always)]
fn write_quoted<W: ChunkSink>(name: &[u8], out: &mut W) -> Result<(), SinkFault>
    requires { (W.model out.old).failed + 1 < 2 ^ 64 }
    ensures wrote { Wrote (quoted name.now) (W.model out.old) (W.model out.new) result }
    ensures borrows { W.borrows out.new ≡ W.borrows out.old }
{
    if has_quotable(name) {
        write_quoted_bytes(name, out)
    } else {
        out.put(name)
    }
}

#[inline(never)]
fn write_quoted_bytes<W: ChunkSink>(name: &[u8], out: &mut W) -> Result<(), SinkFault>
    requires { (W.model out.old).failed + 1 < 2 ^ 64 }
    ensures wrote { Wrote (quoted name.now) (W.model out.old) (W.model out.new) result }
    ensures borrows { W.borrows out.new ≡ W.borrows out.old }
{
    'bytes: for byte in name {
        write_quoted_byte(*byte, out)?;
    }
    Ok(())
}

fn write_quoted_byte<W: ChunkSink>(byte: u8, out: &mut W) -> Result<(), SinkFault>
    requires { (W.model out.old).failed + 1 < 2 ^ 64 }
    ensures wrote { Wrote (quoted_byte byte) (W.model out.old) (W.model out.new) result }
    ensures borrows { W.borrows out.new ≡ W.borrows out.old }
{
    if wants_backslash(byte) {
        out.put(&[b'\\', byte])
    } else {
        out.put(&[byte])
    }
}

fn has_quotable(name: &[u8]) -> bool
    ensures { result ≡ list_any wants_backslash name.now }
{
    name.iter().any(|byte| wants_backslash(*byte))
}

fn wants_backslash(byte: u8) -> bool
    ensures { result ≡ wants_backslash byte }
{
    matches!(byte, b'"' | b'\\')
}
