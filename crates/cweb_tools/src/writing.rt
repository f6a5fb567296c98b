// Writes to the log. No function here allocates.
ghost use Rattle.std.specs.Prelude.{◌≡◌, ◌<◌, ◌+◌, ◌^◌};
ghost use Rattle.std.specs.List.{flat_map};
ghost use Rattle.cweb_files.specs.surface.Writes.{Wrote};
ghost use Rattle.cweb_tools.specs.DeviceModels.{Logs};
ghost use Rattle.cweb_tools.specs.Items.{line, stop_line};
ghost use Rattle.cweb_tools.specs.inner.LogText.{joined_parts, part_bytes, items_of, AppendsToLog};

use crate::chunks::Part;
use crate::log_text::{LogLine, LogText};
use arrayvec::ArrayVec;
use cweb_lines::{Sink, SinkFault, Stop, write_all};
use itoa::Buffer;

/// Log bytes that aren't written yet.
type LogBuffer = ArrayVec<u8, 4096>;

/// Writes a text to the log, or after a fault a prefix. If it fits the buffer, it takes one write. Allocates nothing.
#[inline(never)]
pub fn write_log<L: Sink>(log: &mut L, text: LogText<'_>) -> Result<(), SinkFault>
    requires { (L.model log.old).failed + 1 < 2 ^ 64 }
    ensures { Wrote (flat_map line (items_of text.entry))
        (L.model log.old) (L.model log.new) result }
{
    let mut buffer = LogBuffer::new();
    'chunks: for index in 0..text.chunks() {
        append_chunk(&text.chunk(index), &mut buffer, log)?;
    }
    write_all(log, buffer.as_slice())
}

/// Appends the parts of a chunk.
fn append_chunk<L: Sink>(
    parts: &[Part<'_>],
    buffer: &mut LogBuffer,
    log: &mut L,
) -> Result<(), SinkFault>
    requires { (L.model log.old).failed + 1 < 2 ^ 64 }
    ensures { AppendsToLog (joined_parts parts.now) (L.model log.old) (L.model log.new)
        buffer.old.items buffer.new.items result }
{
    'parts: for part in parts {
        append_part(*part, buffer, log)?;
    }
    Ok(())
}

fn append_part<L: Sink>(
    part: Part<'_>,
    buffer: &mut LogBuffer,
    log: &mut L,
) -> Result<(), SinkFault>
    requires { (L.model log.old).failed + 1 < 2 ^ 64 }
    ensures { AppendsToLog (part_bytes part.entry) (L.model log.old) (L.model log.new)
        buffer.old.items buffer.new.items result }
{
    match part {
        Part::Text(text) => append(text, buffer, log),
        Part::Number(number) => {
            let mut digits = Buffer::new();
            append(digits.format(number).as_bytes(), buffer, log)
        }
    }
}

/// Appends bytes. If they don't fit, the buffer is flushed first. What is longer than the buffer is written at once.
fn append<L: Sink>(bytes: &[u8], buffer: &mut LogBuffer, log: &mut L) -> Result<(), SinkFault>
    requires { (L.model log.old).failed + 1 < 2 ^ 64 }
    ensures { AppendsToLog bytes.now (L.model log.old) (L.model log.new)
        buffer.old.items buffer.new.items result }
{
    if let Ok(()) = buffer.try_extend_from_slice(bytes) {
        return Ok(());
    }
    write_all(log, buffer.as_slice())?;
    buffer.clear();
    if let Ok(()) = buffer.try_extend_from_slice(bytes) {
        return Ok(());
    }
    write_all(log, bytes)
}

/// Writes the line of a stop, and returns the exit status of such a run.
pub fn log_stop<L: Sink>(log: &mut L, stop: Stop, name: &str) -> u8
    requires { (L.model log.old).failed + 1 < 2 ^ 64 }
    ensures status { result ≡ 1 }
    ensures logs { Logs (stop_line stop name.now)
        (L.model log.old) (L.model log.new) }
{
    let _ = write_log(log, LogText::Line(LogLine::Stopped(stop, name)));
    1
}
