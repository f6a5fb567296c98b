// The opening and the scan of a web.
ghost use Rattle.std.specs.Prelude.{◌≡◌, ◌<◌, ◌+◌, ◌^◌, Some, IfOk, IfErr, OnOk, length};
ghost use Rattle.std.specs.Option.{option_copied};
ghost use Rattle.cweb_lines.specs.surface.MergerCalls.{so_far};
ghost use Rattle.cweb_scan.specs.surface.Scan.{IsScanBelow, scanned_model};
ghost use Rattle.cweb_tools.specs.surface.Options.{options_of};
ghost use Rattle.cweb_tools.specs.DeviceModels.{contents_of, failed_reads};
ghost use Rattle.cweb_tools.specs.MergeActs.{world_of};
ghost use Rattle.cweb_tools.specs.inner.Tangle.{CompletesScan, StopsScan, tangle_course};

use crate::options::Options;
use crate::subjects::{folder, start_subject, subject};
use crate::writing::log_stop;
use cweb_lines::{Merger, Shelf, Sink};
use cweb_scan::{Scanned, scan};
use std::alloc::Global;

/// Opens the web and its change file, and scans the web. If something stops that, logs it and returns the status.
pub(crate) fn scan_web<S: Shelf, L: Sink>(
    alloc: Global,
    options: &Options,
    inputs: Option<&str>,
    shelf: &mut S,
    log: &mut L,
) -> Result<(Merger<S>, Scanned), u8>
    requires shelf_count { (S.model shelf.old).failed + 1 < 2 ^ 64 }
    requires log_count { (L.model log.old).failed + 1 < 2 ^ 64 }
    ensures scans { IfOk result (λ read. CompletesScan (options_of options.now)
        (tangle_course (world_of (contents_of (S.model shelf.old)).texts (option_copied inputs.entry))
        (Some (options_of options.now)))
        (failed_reads (S.model shelf.old)) (failed_reads (S.model shelf.new)) (L.model log.old)
        (so_far read.0).names (so_far read.0).faults (scanned_model read.1)) }
    ensures below { IfOk result
        (λ read. IsScanBelow (length (so_far read.0).names) (scanned_model read.1)) }
    ensures silent { OnOk result (log.new ≡ log.old) }
    ensures stops { IfErr result (λ status. StopsScan (options_of options.now)
        (tangle_course (world_of (contents_of (S.model shelf.old)).texts (option_copied inputs.entry))
        (Some (options_of options.now)))
        (failed_reads (S.model shelf.old)) (failed_reads (S.model shelf.new))
        (L.model log.old) (L.model log.new) status) }
{
    let mut merger = match Merger::start(
        alloc,
        shelf,
        options.web.as_str(),
        options.second(),
        options.change(),
        folder(inputs),
    ) {
        Ok(merger) => merger,
        Err(stop) => return Err(log_stop(
            log,
            stop,
            start_subject(options.web.as_str(), options.change(), stop),
        )),
    };
    match scan(alloc, &mut merger, shelf) {
        Ok(scanned) => Ok((merger, scanned)),
        Err(stop) => Err(log_stop(log, stop, subject(merger.names(), stop))),
    }
}
