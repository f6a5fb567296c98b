// Log lines of `ctangle` that depend on its options.
ghost use Rattle.std.specs.Prelude.{◌<◌, ◌+◌, ◌^◌};
ghost use Rattle.cweb_tools.specs.inner.LogText.{item_of};
ghost use Rattle.cweb_tools.specs.inner.Does.{DoesInLog, log_ending};
ghost use Rattle.cweb_tools.specs.Script.{closing_acts, starred_acts, when};
ghost use Rattle.cweb_scan.specs.surface.Scan.{scanned_model};
ghost use Rattle.cweb_tools.specs.Tangle.{numbers_of};

use crate::web::count_parts;
use crate::{LogLine, LogText, Shown, write_log};
use cweb_lines::{Sink, SinkFault};
use cweb_scan::Scanned;

/// Logs a line if it is wanted.
pub(crate) fn say<L: Sink>(wanted: bool, line: LogLine<'_>, log: &mut L) -> Result<(), SinkFault>
    requires { (L.model log.old).failed + 1 < 2 ^ 64 }
    ensures { DoesInLog (when wanted (item_of line.entry)) (log_ending result)
        (L.model log.old) (L.model log.new) }
{
    if !wanted {
        return Ok(());
    }
    write_log(log, LogText::Line(line))
}

/// Logs the numbers of the starred sections if progress is wanted and there are any.
pub(crate) fn say_starred<L: Sink>(
    progress: bool,
    numbers: &[u32],
    log: &mut L,
) -> Result<(), SinkFault>
    requires { (L.model log.old).failed + 1 < 2 ^ 64 }
    ensures { DoesInLog (starred_acts progress numbers.now) (log_ending result)
        (L.model log.old) (L.model log.new) }
{
    if !progress || numbers.is_empty() {
        return Ok(());
    }
    write_log(log, LogText::Starred(numbers))
}

/// Logs what comes after the outputs: the statistics and the closing line.
pub(crate) fn say_end<L: Sink>(
    shown: Shown,
    scanned: &Scanned,
    count: u128,
    missing: bool,
    log: &mut L,
) -> Result<(), SinkFault>
    requires { (L.model log.old).failed + 1 < 2 ^ 64 }
    ensures { DoesInLog (closing_acts shown (numbers_of (scanned_model scanned.now)) count missing)
        (log_ending result) (L.model log.old) (L.model log.new) }
{
    let counts = LogLine::Counts(
        scanned.sections,
        scanned.store.names(),
        count_parts(scanned.store.macros()),
    );
    say(shown.statistics, counts, log)?;
    say(shown.closing, LogLine::Closing(count, missing), log)
}
