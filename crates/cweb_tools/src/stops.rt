// The line for what stopped a run.
ghost use Rattle.std.specs.Prelude.{◌≡◌};
ghost use Rattle.cweb_tools.specs.Items.{message_line, stop_line};
ghost use Rattle.cweb_tools.specs.inner.LogText.{joined_parts};

use crate::chunks::{Chunk, NOTHING, fault_chunk};
use cweb_lines::Stop;

/// The line of a stop, which ends in a name.
pub(crate) fn stop_chunk<'a>(stop: Stop, name: &'a str) -> Chunk<'a>
    ensures { joined_parts result ≡ stop_line stop name.now }
{
    match stop {
        Stop::Usage => message("Usage: ", name),
        Stop::WebNotOpened => message("Cannot open web file ", name),
        Stop::ChangeNotOpened => message("Cannot open change file ", name),
        Stop::ReadFault(_) => message("Read fault on ", name),
        Stop::LineTooLong(_) => message("Line too long in ", name),
        Stop::TooMuchText => message("Too much text", ""),
        Stop::Memory => message("Out of memory", ""),
        Stop::OutNotOpened => message("Cannot open output file ", name),
        Stop::WriteFault => message("Write fault on ", name),
        Stop::LogFault => [NOTHING; 8],
    }
}

fn message<'a>(text: &'a str, name: &'a str) -> Chunk<'a>
    ensures { joined_parts result ≡ message_line text.now name.now }
{
    fault_chunk(text, name.as_bytes(), "")
}
