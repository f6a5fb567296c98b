// What `wdep` says of itself.
ghost use Rattle.std.specs.Prelude.{◌≡◌, ◌<◌, ◌+◌, codes, map};
ghost use Rattle.std.specs.Option.{option_copied};
ghost use Rattle.cweb_tools.specs.Items.{stop_line};
ghost use Rattle.cweb_tools.specs.DeviceModels.{Logs};
ghost use Rattle.cweb_tools.specs.inner.Does.{SinkCountsFit};
ghost use Rattle.cweb_files.specs.Sinks.{FailsWithin, written};
ghost use Rattle.cweb_tools.specs.inner.RuleModel.{about_wdep};

use crate::writing::log_stop;
use cweb_lines::{Sink, Stop, write_all};

const VERSION: &str = "wdep (Lozgirpa) 0.5.1\n";

const HELP: &str = "Usage: wdep [options] webfile[.w] [{changefile[.ch]|-} [outfile[.c]]]

Prints which files ctangle makes from a web, and from which files, as a rule for make, Ninja or CMake.
All options of ctangle may be given, and have no effect. +m prints the first target only.
The manual page wdep(1) has more.
";

/// The text that these arguments ask for, if they are `--version` or `--help` alone.
pub fn about_wdep(words: &[&str]) -> Option<&'static str>
    ensures { option_copied result ≡ about_wdep (map (λ word. word.now) words.now) }
{
    match words {
        [word] if *word == "--version" => Some(VERSION),
        [word] if *word == "--help" => Some(HELP),
        _ => None,
    }
}

/// Prints a text, and returns the status. If that fails, a prefix is printed, and the fault is logged.
pub fn write_about<W: Sink, L: Sink>(text: &str, out: &mut W, log: &mut L) -> u8
    requires counts { SinkCountsFit (W.model out.old).failed (L.model log.old).failed }
    ensures status { result < 2 }
    ensures ok { result ≡ 0 → (log.new ≡ log.old) ×
        (W.model out.new ≡ written text.now (W.model out.old)) }
    ensures fault { result ≡ 1 →
        FailsWithin text.now (W.model out.old) (W.model out.new) ×
        Logs (stop_line Stop.WriteFault (codes "standard output"))
        (L.model log.old) (L.model log.new) }
{
    if let Err(_) = write_all(out, text.as_bytes()) {
        return log_stop(log, Stop::WriteFault, "standard output");
    }
    0
}
