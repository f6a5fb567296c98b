// A run of `wmerge`.
ghost use Rattle.std.specs.Prelude.{◌≡◌, ◌<◌, ◌+◌, ◌^◌, map, None, Some};
ghost use Rattle.std.specs.Option.{option_copied};
ghost use Rattle.cweb_lines.specs.surface.OpenedFileNames as spec;
ghost use Rattle.cweb_tools.specs.Items.{source_item};
ghost use Rattle.cweb_tools.specs.inner.Variables.{merge_word_names};
ghost use Rattle.cweb_tools.specs.DeviceModels.{CountsFit, contents_of, devices};
ghost use Rattle.cweb_tools.specs.CommandLine.{web_names_by};
ghost use Rattle.cweb_tools.specs.inner.Does.{EndsMerge, merge_course, EndsInLog};
ghost use Rattle.cweb_tools.specs.Acts.{acts_status, says};
ghost use Rattle.cweb_tools.specs.MergeActs.{world_of, MergePromises, MergesFreely};

use crate::subjects::{folder, start_subject, subject};
use crate::writing::{log_stop, write_log};
use crate::{LogText, MergeWords};
use cweb_lines::{FileNames, Merger, Shelf, Sink, SourceFault, write_merged_in_chunks};
use std::alloc::Global;

/// The size of the output buffer.
const CHUNK_SIZE: usize = 65536;

const USAGE: &str = "wmerge webfile[.w] [{changefile[.ch]|-}]";

/// Runs `wmerge`: merged lines go to the output, faults to the log. `words` are the arguments. Returns the status.
pub fn run_wmerge<S: Shelf, W: Sink, L: Sink>(
    alloc: Global,
    words: &[&str],
    inputs: Option<&str>,
    shelf: &mut S,
    out: &mut W,
    log: &mut L,
) -> u8
    requires counts { CountsFit (devices S.Shelf W.Sink L.Sink shelf.old out.old log.old) }
    ensures promises { let before =
        devices S.Shelf W.Sink L.Sink shelf.old out.old log.old in
        let args = web_names_by (map (λ word. word.now) words.now) in
        let world = world_of (contents_of (S.model shelf.old)).texts (option_copied inputs.entry) in
        MergePromises world args before
        (devices S.Shelf W.Sink L.Sink shelf.new out.new log.new) result }
    ensures freely { let before =
        devices S.Shelf W.Sink L.Sink shelf.old out.old log.old in
        let args = web_names_by (map (λ word. word.now) words.now) in
        let world = world_of (contents_of (S.model shelf.old)).texts (option_copied inputs.entry) in
        MergesFreely world args before
        (devices S.Shelf W.Sink L.Sink shelf.new out.new log.new) result }
    ensures untouched { web_names_by (map (λ word. word.now) words.now) ≡ None →
        (shelf.new ≡ shelf.old) × (out.new ≡ out.old) }
{
    let args = match MergeWords::read(alloc, words) {
        Ok(args) => args,
        Err(stop) => return log_stop(log, stop, USAGE),
    };
    merge_web(alloc, &args, inputs, shelf, out, log)
}

/// Opens the web and its change file, and writes the merged lines.
fn merge_web<S: Shelf, W: Sink, L: Sink>(
    alloc: Global,
    args: &MergeWords,
    inputs: Option<&str>,
    shelf: &mut S,
    out: &mut W,
    log: &mut L,
) -> u8
    requires counts { CountsFit (devices S.Shelf W.Sink L.Sink shelf.old out.old log.old) }
    ensures { let before =
        devices S.Shelf W.Sink L.Sink shelf.old out.old log.old in
        let world = world_of (contents_of (S.model shelf.old)).texts (option_copied inputs.entry) in
        let names = Some (merge_word_names args.now) in
        EndsMerge names (merge_course world names) before
        (devices S.Shelf W.Sink L.Sink shelf.new out.new log.new) result }
{
    let mut merger = match Merger::start(
        alloc,
        shelf,
        args.web.as_str(),
        args.second(),
        args.change(),
        folder(inputs),
    ) {
        Ok(merger) => merger,
        Err(stop) => return log_stop(
            log,
            stop,
            start_subject(args.web.as_str(), args.change(), stop),
        ),
    };
    match write_merged_in_chunks(&mut merger, shelf, out, CHUNK_SIZE) {
        Ok(()) => log_faults(log, merger.names(), merger.faults()),
        Err(stop) => log_stop(log, stop, subject(merger.names(), stop)),
    }
}

/// Logs the faults of a merge that has ended, and returns the exit status.
fn log_faults<L: Sink>(log: &mut L, names: &FileNames, faults: &[SourceFault]) -> u8
    requires { (L.model log.old).failed + 1 < 2 ^ 64 }
    ensures { let items = map (source_item (spec.opened_file_names names.now)) faults.now in
        EndsInLog (map says items) (acts_status (map says items))
        (L.model log.old) (L.model log.new) result }
{
    if faults.is_empty() {
        return 0;
    }
    // the status is 1 for the faults, even if the log fails
    let _ = write_log(log, LogText::SourceFaults(names, faults));
    1
}
