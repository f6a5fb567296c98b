// Log lines of `ctangle` that are no faults.
ghost use Rattle.std.specs.Prelude.{◌≡◌};

use super::wanted::{holds, same_bytes};
use cweb_lines::SinkFault;
use cweb_tools::{LogLine, LogText, write_log};
use trial::TrialSink;

const LINES: &str =
    "This is CTANGLE, profile of CWEB 3\n*1*40\n! No program text\nWriting a.c\nSections: 3. Names: 2. Macros: 0.\n(Did you see the warning?)\n";

fn write_items(log: &mut TrialSink) -> Result<(), SinkFault>
    requires { log.old.failed ≡ 0 }
{
    write_log(log, LogText::Line(LogLine::Banner))?;
    write_log(log, LogText::Starred(&[1, 40]))?;
    write_log(log, LogText::Line(LogLine::NoProgramText))?;
    write_log(log, LogText::Line(LogLine::Writing("a.c")))?;
    write_log(log, LogText::Line(LogLine::Counts(3, 2, 0)))?;
    write_log(log, LogText::Line(LogLine::Closing(0, true)))
}

#[test]
fn lines_of_items(rt: HostRuntime) {
    let mut log = TrialSink::new(rt.alloc());
    holds(&rt, write_items(&mut log).is_ok());
    same_bytes(&rt, log.bytes(), LINES.as_bytes());
}
