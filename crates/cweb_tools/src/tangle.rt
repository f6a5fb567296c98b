// A run of `ctangle`.
ghost use Rattle.std.specs.Prelude.{◌≡◌, ◌≢◌, ◌<◌, ◌+◌, ◌^◌, None, Some, IfErr, IfOk, OnOk, length, map, string_bytes};
ghost use Rattle.std.specs.Option.{option_copied};
ghost use Rattle.cweb_files.specs.Sinks.{SinkModel};
ghost use Rattle.cweb_lines.specs.surface.MergerCalls.{so_far};
ghost use Rattle.cweb_scan.specs.surface.Scan.{IsScanBelow, scanned_model};
ghost use Rattle.cweb_out.specs.surface.Outputs.{IsPlanOf};
ghost use Rattle.cweb_tools.specs.CommandLine.{options_by};
ghost use Rattle.cweb_tools.specs.DeviceModels.{CountsFit, contents_of, devices, failed_reads};
ghost use Rattle.cweb_tools.specs.inner.Does.{SinkCountsFit, at, DoesInLog, EndsInBoth, log_ending};
ghost use Rattle.cweb_tools.specs.Items.{no_text};
ghost use Rattle.cweb_tools.specs.surface.Options.{options_of};
ghost use Rattle.cweb_tools.specs.Acts.{LogsEnding, acts_status, ending};
ghost use Rattle.cweb_tools.specs.MergeActs.{world_of};
ghost use Rattle.cweb_tools.specs.Script.{planned_acts, web_acts, when};
ghost use Rattle.cweb_tools.specs.Tangle.{numbers_of, TanglePromises, TanglesFreely};
ghost use Rattle.cweb_tools.specs.inner.Tangle.{BeginsTangle, EndsTangle, fault_count, plan_made, status_by};
ghost use Rattle.cweb_tools.specs.inner.Tangle.{IsKnown, faults_of, files_of, web_in};

mod unplanned;

use crate::outputs::write_outputs;
use crate::saying::{say, say_end, say_starred};
use crate::scanning::scan_web;
use crate::tangle::unplanned::tangle_unplanned;
use crate::web::{Web, say_faults, status};
use crate::writing::log_stop;
use crate::{LogLine, Options, Shown};
use cweb_lines::{Merger, Shelf, Sink, SinkFault, Stop};
use cweb_out::{Bins, Expander, OutBuffer, Plan, plan};
use cweb_scan::Scanned;
use std::alloc::Global;

const USAGE: &str = "ctangle [options] webfile[.w] [{changefile[.ch]|-} [outfile[.c]]]";

/// Runs `ctangle`: writes C files to the bins and messages to the log. `words` are the arguments. Returns the status.
pub fn run_ctangle<S: Shelf, B: Bins, L: Sink>(
    alloc: Global,
    words: &[&str],
    inputs: Option<&str>,
    shelf: &mut S,
    bins: &mut B,
    log: &mut L,
) -> u8
    requires counts { CountsFit (devices S.Shelf B.Sink L.Sink shelf.old bins.old log.old) }
    ensures promises { let before =
        devices S.Shelf B.Sink L.Sink shelf.old bins.old log.old in
        let args = options_by (map (λ word. word.now) words.now) in
        let world = world_of (contents_of (S.model shelf.old)).texts (option_copied inputs.entry) in
        TanglePromises world args before
        (devices S.Shelf B.Sink L.Sink shelf.new bins.new log.new) result }
    ensures freely { let before = devices S.Shelf B.Sink L.Sink shelf.old bins.old log.old in
        let args = options_by (map (λ word. word.now) words.now) in
        let world = world_of (contents_of (S.model shelf.old)).texts (option_copied inputs.entry) in
        TanglesFreely world args before
        (devices S.Shelf B.Sink L.Sink shelf.new bins.new log.new) result }
    ensures untouched { options_by (map (λ word. word.now) words.now) ≡ None →
        (shelf.new ≡ shelf.old) × (bins.new ≡ bins.old) }
{
    match begin_tangle(alloc, words, inputs, shelf, log) {
        Ok(begun) => tangle_web(alloc, &begun.0, Web::of(&begun.1), bins, log),
        Err(status) => status,
    }
}

/// Parses the arguments, logs the banner, and opens and scans the web. If that ends the run, returns the status.
pub(crate) fn begin_tangle<S: Shelf, L: Sink>(
    alloc: Global,
    words: &[&str],
    inputs: Option<&str>,
    shelf: &mut S,
    log: &mut L,
) -> Result<(Options, (Merger<S>, Scanned)), u8>
    requires shelf_count { (S.model shelf.old).failed + 1 < 2 ^ 64 }
    requires log_count { (L.model log.old).failed + 1 < 2 ^ 64 }
    ensures begins { IfOk result (λ begun. BeginsTangle
        (options_by (map (λ word. word.now) words.now))
        (world_of (contents_of (S.model shelf.old)).texts (option_copied inputs.entry))
        (failed_reads (S.model shelf.old)) (failed_reads (S.model shelf.new))
        (L.model log.old) (L.model log.new) begun.0
        (so_far begun.1.0).names (so_far begun.1.0).faults (scanned_model begun.1.1)) }
    ensures ok { IfOk result (λ begun. options_by (map (λ word. word.now) words.now)
        ≡ Some (options_of begun.0)) }
    ensures below { IfOk result (λ begun.
        IsScanBelow (length (so_far begun.1.0).names) (scanned_model begun.1.1)) }
    ensures calm { OnOk result ((L.model log.new).failed ≡ (L.model log.old).failed) }
    ensures ends { IfErr result (λ status. (out : SinkModel) → EndsTangle
        (options_by (map (λ word. word.now) words.now))
        (world_of (contents_of (S.model shelf.old)).texts (option_copied inputs.entry))
        (at (failed_reads (S.model shelf.old)) out (L.model log.old))
        (at (failed_reads (S.model shelf.new)) out (L.model log.new)) status) }
    ensures untouched { options_by (map (λ word. word.now) words.now) ≡ None →
        shelf.new ≡ shelf.old }
{
    let options = match Options::read(alloc, words) {
        Ok(options) => options,
        Err(stop) => return Err(log_stop(log, stop, USAGE)),
    };
    if let Err(_) = say(options.banner, LogLine::Banner, log) {
        return Err(1);
    }
    match scan_web(alloc, &options, inputs, shelf, log) {
        Ok(read) => Ok((options, read)),
        Err(status) => Err(status),
    }
}

/// Logs the faults of a scanned web, plans its outputs, and continues with the plan.
pub(crate) fn tangle_web<B: Bins, L: Sink>(
    alloc: Global,
    options: &Options,
    web: Web<'_>,
    bins: &mut B,
    log: &mut L,
) -> u8
    requires known { IsKnown web }
    requires counts { SinkCountsFit (B.model bins.old).failed (L.model log.old).failed }
    ensures { let acts =
        web_acts (options_of options.now).shown (web_in web.entry (string_bytes options.now.main)) in
        EndsInBoth acts (acts_status acts)
        (B.model bins.old) (B.model bins.new)
        (L.model log.old) (L.model log.new) result }
{
    let shown = options.shown();
    let main = options.main.as_str();
    if let Err(_) = say_starred(shown.progress, web.scanned.starred.as_slice(), log) {
        return 1;
    }
    if let Err(_) = say_faults(web, log) {
        return 1;
    }
    match plan(alloc, web.store(), main) {
        Ok(plan) => tangle_planned(alloc, shown, web, &plan, bins, log),
        Err(fault) => tangle_unplanned(shown, main, web, fault, log),
    }
}

/// Writes the outputs and ends the run. Allocates all memory for expansion and printing before the first output.
fn tangle_planned<B: Bins, L: Sink>(
    alloc: Global,
    shown: Shown,
    web: Web<'_>,
    plan: &Plan,
    bins: &mut B,
    log: &mut L,
) -> u8
    requires known { IsKnown web }
    requires made { IsPlanOf web.scanned.now.store plan.now }
    requires counts { SinkCountsFit (B.model bins.old).failed (L.model log.old).failed }
    ensures { EndsInBoth
        (planned_acts shown
        (numbers_of (scanned_model web.entry.scanned.now)) (fault_count (faults_of web.entry))
        (plan_made web.entry.scanned.now.store (files_of web.entry) plan.now))
        (status_by (fault_count (faults_of web.entry))
        (plan_made web.entry.scanned.now.store (files_of web.entry) plan.now))
        (B.model bins.old) (B.model bins.new)
        (L.model log.old) (L.model log.new) result }
{
    if let Err(_) = say_warning(plan, log) {
        return 1;
    }
    let Ok(mut expander) = Expander::new(alloc, web.store(), plan, 0) else {
        return log_stop(log, Stop::Memory, "");
    };
    let Ok(mut buffer) = OutBuffer::new(alloc) else {
        return log_stop(log, Stop::Memory, "");
    };
    if let Err(failed) = write_outputs(
        shown.progress,
        web.names,
        &mut expander,
        &mut buffer,
        bins,
        log,
    ) {
        return log_failed(log, failed.stop, plan.output_name(failed.output));
    }
    let count = web.fault_count();
    if let Err(_) = say_end(shown, web.scanned, count, plan.no_text(), log) {
        return 1;
    }
    status(count)
}

/// Logs the warning if a web has no program text.
fn say_warning<L: Sink>(plan: &Plan, log: &mut L) -> Result<(), SinkFault>
    requires { (L.model log.old).failed + 1 < 2 ^ 64 }
    ensures { DoesInLog (when plan.now.no_text no_text) (log_ending result)
        (L.model log.old) (L.model log.new) }
{
    say(plan.no_text(), LogLine::NoProgramText, log)
}

/// Logs what stopped the writing of the outputs. A log that failed gets no line.
fn log_failed<L: Sink>(log: &mut L, stop: Stop, name: &str) -> u8
    requires { stop ≢ Stop.LogFault → (L.model log.old).failed + 1 < 2 ^ 64 }
    ensures status { result ≡ 1 }
    ensures logs { LogsEnding (ending stop name.now)
        (L.model log.old) (L.model log.new) }
{
    if let Stop::LogFault = stop {
        return 1;
    }
    log_stop(log, stop, name)
}
