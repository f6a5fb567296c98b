// Runs in a folder.
ghost use Rattle.std.specs.Prelude.{◌≡◌, ◌<◌, ◌+◌, ◌^◌, [], fold, map};
ghost use Rattle.cweb_files.specs.Files.{put_file};
ghost use Rattle.std.specs.Option.{option_copied};
ghost use Rattle.cweb_system.specs.Bins.{bins_model, bins_read, bins_system, new_shelf};
ghost use Rattle.cweb_system.specs.Steps.{AreDecent, OnDisk};
ghost use Rattle.cweb_tools.specs.CommandLine.{options_by, web_names_by};
ghost use Rattle.cweb_tools.specs.DeviceModels.{contents_of, failed_reads};
ghost use Rattle.cweb_tools.specs.inner.Does.{SinkCountsFit};
ghost use Rattle.cweb_tools.specs.MergeActs.{world_of, MergePromises, MergesFreely};
ghost use Rattle.cweb_tools.specs.Depend.{DependPromises, DependsFreely, targets_by};
ghost use Rattle.cweb_tools.specs.Headline.{RanFreely, written_files};
ghost use Rattle.cweb_tools.specs.InFolder.{AreIn, KeepsInFolder, devices_before};
ghost use Rattle.cweb_tools.specs.Script.{TangleCourse, script};
ghost use Rattle.cweb_tools.specs.Tangle.{IsTangleCourse, TanglePromises, shown_by};

use crate::tangle::{begin_tangle, tangle_web};
use crate::web::Web;
use crate::{run_wdep, run_wmerge};
use cweb_lines::Sink;
use cweb_system::{FileSystem, FolderBins, FolderShelf};
use std::alloc::Global;

/// Runs `ctangle` in a folder: reads the web from it, and writes the outputs to it. Returns the status, and the bins that
/// have the folder.
pub fn tangle_in_folder<F: FileSystem + Drop, L: Sink>(
    alloc: Global,
    words: &[&str],
    inputs: Option<&str>,
    fs: F,
    log: &mut L,
) -> (u8, FolderBins<F>)
    requires begun { OnDisk F.disk (λ see. (see fs).past ≡ []) }
    requires count { (L.model log.old).failed + 1 < 2 ^ 64 }
    // If nothing failed, the folder has the files of the course, with their bytes.
    ensures files { let before = devices_before F.FileSystem fs (L.model log.old) in
        let args = options_by (map (λ word. word.now) words.now) in
        let world = world_of (contents_of (new_shelf F.FileSystem fs)).texts
        (option_copied inputs.entry) in
        OnDisk F.disk (λ see. (course : TangleCourse) → IsTangleCourse world args course →
        RanFreely (script (shown_by args) course) before (record before {
          out = bins_model F.FileSystem result.1;
          log = L.model log.new;
        }) →
        AreIn (see (bins_system result.1)).tree
        (fold put_file [] (written_files (script (shown_by args) course)))) }
    // In any run, at each moment, each file that is no draft is the old one or a whole new one, and no file that was
    // read is replaced.
    ensures moments { ∥ (OnDisk F.disk (λ see. AreDecent (bins_read result.1)
        (see (bins_system result.1)).tree (see (bins_system result.1)).past)) ∥₁ }
    ensures promises { let args = options_by (map (λ word. word.now) words.now) in
        let world = world_of (contents_of (new_shelf F.FileSystem fs)).texts
        (option_copied inputs.entry) in
        KeepsInFolder (TanglePromises world args)
        (devices_before F.FileSystem fs (L.model log.old))
        (bins_model F.FileSystem result.1) (L.model log.new) result.0 }
{
    let mut shelf = FolderShelf::new(alloc, fs);
    match begin_tangle(alloc, words, inputs, &mut shelf, log) {
        Ok(begun) => {
            let mut bins = shelf.into_bins(alloc);
            let status = tangle_web(alloc, &begun.0, Web::of(&begun.1), &mut bins, log);
            (status, bins)
        }
        Err(status) => (status, shelf.into_bins(alloc)),
    }
}

/// Runs `wmerge` on the files of a folder. Returns the status.
pub fn merge_in_folder<F: FileSystem + Drop, W: Sink, L: Sink>(
    alloc: Global,
    words: &[&str],
    inputs: Option<&str>,
    fs: F,
    out: &mut W,
    log: &mut L,
) -> u8
    requires begun { OnDisk F.disk (λ see. (see fs).past ≡ []) }
    requires counts { SinkCountsFit (W.model out.old).failed (L.model log.old).failed }
    ensures promises { let args = web_names_by (map (λ word. word.now) words.now) in
        let world = world_of (contents_of (new_shelf F.FileSystem fs)).texts
        (option_copied inputs.entry) in
        KeepsInFolder (λ before after status.
        MergePromises world args before after status × MergesFreely world args before after status)
        (record {
          shelf = failed_reads (new_shelf F.FileSystem fs);
          out = W.model out.old;
          log = L.model log.old;
        })
        (W.model out.new) (L.model log.new) result }
{
    let mut shelf = FolderShelf::new(alloc, fs);
    run_wmerge(alloc, words, inputs, &mut shelf, out, log)
}

/// Runs `wdep` on the files of a folder. Returns the status.
pub fn depend_in_folder<F: FileSystem + Drop, W: Sink, L: Sink>(
    alloc: Global,
    words: &[&str],
    inputs: Option<&str>,
    fs: F,
    out: &mut W,
    log: &mut L,
) -> u8
    requires begun { OnDisk F.disk (λ see. (see fs).past ≡ []) }
    requires counts { SinkCountsFit (W.model out.old).failed (L.model log.old).failed }
    ensures promises { let args = options_by (map (λ word. word.now) words.now) in
        let world = world_of (contents_of (new_shelf F.FileSystem fs)).texts
        (option_copied inputs.entry) in
        let targets = targets_by (map (λ word. word.now) words.now) in
        KeepsInFolder (λ before after status. DependPromises world targets args before after status
        × DependsFreely world targets args before after status)
        (record {
          shelf = failed_reads (new_shelf F.FileSystem fs);
          out = W.model out.old;
          log = L.model log.old;
        })
        (W.model out.new) (L.model log.new) result }
{
    let mut shelf = FolderShelf::new(alloc, fs);
    run_wdep(alloc, words, inputs, &mut shelf, out, log)
}
