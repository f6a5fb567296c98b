// A run of `wdep`.
ghost use Rattle.std.specs.Prelude.{◌≡◌, ◌<◌, map, None};
ghost use Rattle.std.specs.Option.{option_copied};
ghost use Rattle.cweb_out.specs.surface.Outputs.{IsPlanOf};
ghost use Rattle.cweb_tools.specs.CommandLine.{options_by};
ghost use Rattle.cweb_tools.specs.DeviceModels.{CountsFit, contents_of, devices};
ghost use Rattle.cweb_tools.specs.inner.Does.{SinkCountsFit, EndsInBoth};
ghost use Rattle.cweb_tools.specs.Acts.{acts_status};
ghost use Rattle.cweb_tools.specs.MergeActs.{world_of};
ghost use Rattle.cweb_tools.specs.Depend.{DependPromises, DependsFreely, depend_plan_acts, depend_web_acts, targets_by};
ghost use Rattle.cweb_tools.specs.declared.rule_targets.Targets.{Targets};
ghost use Rattle.cweb_tools.specs.inner.Tangle.{fault_count, plan_made, status_by, faults_of, files_of, web_in};

use crate::depfile::depfile;
use crate::rule_targets::Targets;
use crate::saying::say;
use crate::scanning::scan_web;
use crate::web::{Web, say_faults, status};
use crate::writing::{log_stop, write_log};
use crate::{LogLine, LogText, Options};
use cweb_lines::{Shelf, Sink, Stop, write_all};
use cweb_out::{Plan, plan};
use std::alloc::Global;

const USAGE: &str = "wdep [options] webfile[.w] [{changefile[.ch]|-} [outfile[.c]]]";

/// Runs `wdep`: prints which files `ctangle` makes, and from which files, as a compiler's depfile. Faults go to the
/// log. `words` are the arguments, the same as for `ctangle`. Returns the status.
pub fn run_wdep<S: Shelf, W: Sink, L: Sink>(
    alloc: Global,
    words: &[&str],
    inputs: Option<&str>,
    shelf: &mut S,
    out: &mut W,
    log: &mut L,
) -> u8
    requires counts { CountsFit (devices S.Shelf W.Sink L.Sink shelf.old out.old log.old) }
    ensures promises { let before =
        devices S.Shelf W.Sink L.Sink shelf.old out.old log.old in
        let args = options_by (map (λ word. word.now) words.now) in
        let world = world_of (contents_of (S.model shelf.old)).texts (option_copied inputs.entry) in
        let targets = targets_by (map (λ word. word.now) words.now) in
        DependPromises world targets args before
        (devices S.Shelf W.Sink L.Sink shelf.new out.new log.new) result }
    ensures freely { let before =
        devices S.Shelf W.Sink L.Sink shelf.old out.old log.old in
        let args = options_by (map (λ word. word.now) words.now) in
        let world = world_of (contents_of (S.model shelf.old)).texts (option_copied inputs.entry) in
        let targets = targets_by (map (λ word. word.now) words.now) in
        DependsFreely world targets args before
        (devices S.Shelf W.Sink L.Sink shelf.new out.new log.new) result }
    ensures untouched { options_by (map (λ word. word.now) words.now) ≡ None →
        (shelf.new ≡ shelf.old) × (out.new ≡ out.old) }
{
    let options = match Options::read(alloc, words) {
        Ok(options) => options,
        Err(stop) => return log_stop(log, stop, USAGE),
    };
    match scan_web(alloc, &options, inputs, shelf, log) {
        Ok(read) => depend_web(
            alloc,
            options.main.as_str(),
            Web::of(&read),
            Targets::of(words),
            out,
            log,
        ),
        Err(status) => status,
    }
}

/// Logs the faults of a scanned web, plans its outputs, and continues with the plan. Without a plan it prints nothing.
fn depend_web<W: Sink, L: Sink>(
    alloc: Global,
    main: &str,
    web: Web<'_>,
    targets: Targets,
    out: &mut W,
    log: &mut L,
) -> u8
    requires counts { SinkCountsFit (W.model out.old).failed (L.model log.old).failed }
    ensures { let acts =
        depend_web_acts targets (files_of web.entry) (web_in web.entry main.now) in
        EndsInBoth acts (acts_status acts)
        (W.model out.old) (W.model out.new)
        (L.model log.old) (L.model log.new) result }
{
    if let Err(_) = say_faults(web, log) {
        return 1;
    }
    match plan(alloc, web.store(), main) {
        Ok(plan) => depend_planned(alloc, web, &plan, targets, out, log),
        Err(fault) => {
            let _ = write_log(log, LogText::unplanned(web.store(), &fault, main));
            1
        }
    }
}

/// Prints the depfile of a plan, and ends the run.
fn depend_planned<W: Sink, L: Sink>(
    alloc: Global,
    web: Web<'_>,
    plan: &Plan,
    targets: Targets,
    out: &mut W,
    log: &mut L,
) -> u8
    requires made { IsPlanOf web.scanned.now.store plan.now }
    requires counts { SinkCountsFit (W.model out.old).failed (L.model log.old).failed }
    ensures { EndsInBoth (depend_plan_acts targets (files_of web.entry)
        (plan_made web.entry.scanned.now.store (files_of web.entry) plan.now))
        (status_by (fault_count (faults_of web.entry))
        (plan_made web.entry.scanned.now.store (files_of web.entry) plan.now))
        (W.model out.old) (W.model out.new)
        (L.model log.old) (L.model log.new) result }
{
    if let Err(_) = say(plan.no_text(), LogLine::NoProgramText, log) {
        return 1;
    }
    let Ok(text) = depfile(alloc, plan, targets, web.names) else {
        return log_stop(log, Stop::Memory, "");
    };
    if let Err(_) = write_all(out, text.as_slice()) {
        return log_stop(log, Stop::WriteFault, "standard output");
    }
    status(web.fault_count())
}
