// A scanned web.
ghost use Rattle.std.specs.Prelude.{◌≡◌, ◌<◌, ◌+◌, ◌^◌, ◌==◌, if◌then◌else◌, length, map};
ghost use Rattle.std.specs.List.{flat_map};
ghost use Rattle.cweb_lines.specs.surface.MergerCalls.{so_far};
ghost use Rattle.cweb_scan.specs.surface.Scan.{IsScanBelow, scanned_model};
ghost use Rattle.cweb_files.specs.surface.Writes.{Wrote};
ghost use Rattle.cweb_tools.specs.Items.{line};
ghost use Rattle.cweb_tools.specs.inner.Tangle.{fault_count, IsKnown, faults_of, files_of};
ghost use Rattle.cweb_tools.specs.Acts.{says};
ghost use Rattle.cweb_tools.specs.inner.Does.{DoesInLog, log_ending};

use crate::{LogText, write_log};
use cweb_lines::{FileNames, Merger, Shelf, Sink, SinkFault, SourceFault};
use cweb_scan::Scanned;
use cweb_store::{Parts, Store};

/// A scanned web: the opened files, the faults of web and change file, and the result of the scan.
#[derive(Clone, Copy)]
pub(crate) struct Web<'a> {
    pub(crate) names: &'a FileNames,
    pub(crate) faults: &'a [SourceFault],
    pub(crate) scanned: &'a Scanned,
}

impl<'a> Web<'a> {
    /// The web of a merge that was scanned to its end.
    pub(crate) fn of<S: Shelf>(read: &'a (Merger<S>, Scanned)) -> Web<'a>
        requires { IsScanBelow (length (so_far read.now.0).names) (scanned_model read.now.1) }
        ensures known { IsKnown result }
        ensures names { files_of result ≡ (so_far read.now.0).names }
        ensures faults { result.faults.now ≡ (so_far read.now.0).faults }
        ensures scanned { result.scanned.now ≡ read.now.1 }
    {
        Web {
            names: read.0.names(),
            faults: read.0.faults(),
            scanned: &read.1,
        }
    }

    pub(crate) fn store(self) -> &'a Store
        ensures { result.now ≡ self.entry.scanned.now.store }
    {
        &self.scanned.store
    }

    /// The number of faults of files, source and names.
    pub(crate) fn fault_count(self) -> u128
        ensures count { result ≡ fault_count (faults_of self.entry) }
        ensures few { result < 2 ^ 127 }
    {
        let of_files = self.faults.len() as u128;
        let of_text = self.scanned.faults.len() as u128;
        let of_names = self.scanned.store.name_faults().len() as u128;
        of_files + of_text + of_names
    }
}

/// The number of parts that are left.
pub(crate) fn count_parts(mut parts: Parts<'_>) -> u32
    requires { length parts < 2 ^ 32 }
    ensures { result ≡ length parts.entry }
{
    let mut count = 0;
    'parts: while let Some(_) = parts.next() {
        count += 1;
    }
    count
}

/// Logs the faults of the files, the source and the names.
pub(crate) fn say_faults<L: Sink>(web: Web<'_>, log: &mut L) -> Result<(), SinkFault>
    requires { (L.model log.old).failed + 1 < 2 ^ 64 }
    ensures { DoesInLog (map says (faults_of web.entry)) (log_ending result)
        (L.model log.old) (L.model log.new) }
{
    if web.fault_count() == 0 {
        return Ok(());
    }
    write_web_faults(web, log)
}

fn write_web_faults<L: Sink>(web: Web<'_>, log: &mut L) -> Result<(), SinkFault>
    requires { (L.model log.old).failed + 1 < 2 ^ 64 }
    ensures { Wrote (flat_map line (faults_of web.entry))
        (L.model log.old) (L.model log.new) result }
{
    write_log(log, LogText::SourceFaults(web.names, web.faults))?;
    write_log(
        log,
        LogText::ScanFaults(web.names, web.scanned.faults.as_slice()),
    )?;
    write_log(log, LogText::NameFaults(web.store()))
}

/// The exit status of a run with this number of faults that nothing stopped.
pub(crate) fn status(count: u128) -> u8
    ensures { result ≡ (if count == 0 then 0 else 1) }
{
    if count == 0 { 0 } else { 1 }
}
