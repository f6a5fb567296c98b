//! Laws of whole runs, for all device failures and failed allocations, of blanks between tokens, and of targets.
ghost use Rattle.std.specs.Prelude.{◌≡◌, ℕ, List};
ghost use Rattle.cweb_tools.specs.DeviceModels.{Devices};
ghost use Rattle.cweb_lines.specs.Events.{Event};
ghost use Rattle.cweb_tools.specs.declared.options.Shown.{Shown};
ghost use Rattle.cweb_tools.specs.Acts.{RunEnds};
ghost use Rattle.cweb_tools.specs.Headline.{files_in};
ghost use Rattle.cweb_tools.specs.laws.RunEffects.{EveryMergeLeavesOutput, EveryRunLeavesDevices};
ghost use Rattle.cweb_tools.specs.laws.RunEffects.{EveryRunLeavesTheShelf, TargetsAreWrittenFiles};
ghost use Rattle.cweb_tools.specs.Script.{Web, refused, script, tangling};
ghost use Rattle.cweb_tools.specs.Spacing.{Spacing};

/// A refused plan changes no file.
pub fn refused_plans_write_no_file()
    ensures { (shown : Shown) (names : List (List ℕ)) (events : List Event) (web : Web)
        (text : List ℕ) → web.plan ≡ refused text →
        (expected : ℕ) (old new : Devices) (status : ℕ) →
        RunEnds (script shown (tangling names events web)) expected old new status →
        files_in new.out ≡ files_in old.out }
{}

/// A run of `ctangle` does all its acts, or logs what stopped it and returns 1. The bins have the first expected files,
/// each whole, all other files unchanged, and no draft. They change only if all was read within the limits. A web that
/// breaks the limits never gives status 0. No device fails twice, and a failed device or a file that the bins refuse
/// makes the status 1.
pub fn every_run_leaves_devices()
    ensures { EveryRunLeavesDevices }
{}

/// After a run of `ctangle`, `wmerge` or `wdep`, the shelf blames the file whose read failed, and no other. The
/// last line of the log names that file, unless the log failed.
pub fn every_run_leaves_the_shelf()
    ensures { EveryRunLeavesTheShelf }
{}

/// A run of `wmerge` prints a prefix of the merged lines, and all of them if its status is 0. No failed device and no
/// broken limit goes unreported, and no device fails twice.
pub fn every_merge_leaves_output()
    ensures { EveryMergeLeavesOutput }
{}

/// Printed tokens of C text, with each `@` doubled, read back as the same tokens without a fault. Blanks separate all
/// tokens that would otherwise read differently.
pub fn spacing()
    ensures { Spacing }
{}

/// The targets that `wdep` prints are the files that `ctangle` writes, in order, and both end with the same status.
pub fn targets_are_written_files()
    ensures { TargetsAreWrittenFiles }
{}
