// Scans all lines of a merger.
ghost use Rattle.std.specs.Prelude.{◌≡◌, ℕ, List, [], ◌<◌, ◌+◌, ◌*◌, ◌^◌, ◌≤◌};
ghost use Rattle.std.specs.Prelude.{length, Err, IfErr, IfOk, IfSome, OnOk, None, Some};
ghost use Rattle.cweb_files.specs.Shelves.{Observed, ShelfContents, ShelfModel};
ghost use Rattle.cweb_lines.specs.inner.Ahead.{IsAhead, LooksAhead, BorrowsLines};
ghost use Rattle.cweb_lines.specs.Events.{Event};
ghost use Rattle.cweb_lines.specs.surface.MergeProgress.{SoFar};
ghost use Rattle.cweb_lines.specs.surface.OpenSources.{files_named, BlamesFile, ReadsShelf, name_of_file};
ghost use Rattle.cweb_lines.specs.surface.MergerCalls.{to_come, so_far, stop_in, HasEnded, Grows, KnowsReaders};
ghost use Rattle.cweb_store.specs.surface.Tokens.{too_many};
ghost use Rattle.cweb_scan.specs.inner.MatchSteps.{ReadsAhead, scanned_after, HasTaken};
ghost use Rattle.cweb_scan.specs.inner.ReaderModel.{cost, new_reader};
ghost use Rattle.cweb_scan.specs.surface.Scan.{scanned_model, LeavesStop, ScanEndsEarly, ScansWithinLimits, Scans};

use crate::reader::Reader;
use crate::scanner::scanned::Scanned;
use cweb_lines::{Ahead, Merger, Shelf, Stop};
use std::alloc::{AllocError, Global};

// Ends the scan after the last line.
fn finished(reader: Reader) -> Result<Scanned, AllocError>
    requires { cost reader + 8 < too_many }
    ensures { IfOk result (λ made. scanned_model made ≡ scanned_after reader) }
{
    let scanner = reader.finish()?;
    scanner.scanned()
}

// Reads the next lines in the merger's buffer, before they are taken. Returns the last one.
#[inline(always)]
fn read_ahead<S: Shelf>(
    merger: &Merger<S>,
    first: Ahead,
    reader: &mut Reader,
) -> Result<Ahead, AllocError>
    requires looks { LooksAhead merger.now.run [] first }
    requires ahead { IsAhead merger.now.run first }
    requires cost { let so = (so_far merger.now).count in
        cost reader.old ≤ 3 * (so.bytes + so.lines) }
    ensures { IfOk result (λ ahead. (lines : List (List ℕ))
        × ReadsAhead merger.now.run lines ahead reader.old reader.new) }
{
    reader.take_line(first.line.place, merger.bytes_of(first.line))?;
    let mut ahead = first;
    'lines: while let Some(next) = merger.next_ahead(ahead) {
        reader.take_line(next.line.place, merger.bytes_of(next.line))?;
        ahead = next;
    }
    Ok(ahead)
}

// Fast path: takes lines in the merger's buffer, as long as they can be borrowed.
fn take_borrowed<S: Shelf>(merger: &mut Merger<S>, reader: &mut Reader) -> Result<(), AllocError>
    requires { let so = (so_far merger.old).count in cost reader.old ≤ 3 * (so.bytes + so.lines) }
    ensures borrowed { BorrowsLines merger.old.run merger.new.run }
    ensures taken { OnOk result ((shelf : ShelfModel S.R) → (first : SoFar) →
        (all : ShelfContents S.R → List Event) →
        HasTaken shelf first (so_far merger.old) all (λ seen. to_come seen merger.old) reader.old →
        HasTaken shelf first (so_far merger.new) all (λ seen. to_come seen merger.new) reader.new) }
    ensures cost { let so = (so_far merger.new).count in
        OnOk result (cost reader.new ≤ 3 * (so.bytes + so.lines)) }
{
    'stretches: while let Some(first) = merger.first_ahead() {
        let ahead = read_ahead(merger, first, reader)?;
        merger.take_ahead(ahead);
    }
    Ok(())
}

// Takes all remaining lines, copying each one that isn't borrowed.
fn take_lines<S: Shelf>(
    merger: &mut Merger<S>,
    shelf: &mut S,
    line: &mut Vec<u8>,
    reader: &mut Reader,
) -> Result<(), Stop>
    requires count { (S.model shelf.old).failed + 1 < 2 ^ 64 }
    requires running { stop_in merger.old ≡ None }
    requires fresh { reader.old ≡ new_reader }
    ensures reads { ReadsShelf (S.model shelf.old) (S.model shelf.new) result }
    ensures grows { Grows (so_far merger.old) (so_far merger.new) }
    ensures scans { Observed (S.model shelf.old) (λ seen.
        OnOk result (Scans (scanned_after reader.new)
        (so_far merger.old) (so_far merger.new) (to_come seen merger.old))) }
    ensures within { OnOk result
        (ScansWithinLimits (so_far merger.new) (scanned_after reader.new)) }
    ensures ended { OnOk result ((stop_in merger.new ≡ None) × HasEnded merger.new
        × (cost reader.new + 8 < too_many)) }
    ensures stops { Observed (S.model shelf.old) (λ seen. IfErr result (λ stop. ScanEndsEarly stop
        (so_far merger.old) (so_far merger.new) (to_come seen merger.old))) }
    ensures blames { IfErr result (λ stop. LeavesStop stop (stop_in merger.new)) }
    ensures blamed { Observed (S.model shelf.old) (λ seen. KnowsReaders seen merger.old →
        BlamesFile (name_of_file (so_far merger.new).names)
        (S.model shelf.old) (S.model shelf.new) result) }
    ensures named { IfErr result (λ stop. files_named stop ≤ length (so_far merger.new).names) }
{
    'lines: loop {
        let Some(place) = merger.next_line(shelf, line)? else {
            return Ok(());
        };
        if let Err(_) = reader.take_line(place, line) {
            return Err(merger.halt());
        }
        if let Err(_) = take_borrowed(merger, reader) {
            return Err(merger.halt());
        }
    }
}

/// Scans the remaining lines of a merger into a store, faults and sections. The source is these lines joined by
/// newlines. If an allocation fails, the merger stops. A scan that isn't whole returns the merger's stop.
pub fn scan<S: Shelf>(alloc: Global, merger: &mut Merger<S>, shelf: &mut S) -> Result<Scanned, Stop>
    requires { (S.model shelf.old).failed + 1 < 2 ^ 64 }
    ensures grows { Grows (so_far merger.old) (so_far merger.new) }

    // All lines were scanned.
    ensures scans { Observed (S.model shelf.old) (λ seen.
        IfOk result (λ made. Scans (scanned_model made)
        (so_far merger.old) (so_far merger.new) (to_come seen merger.old))) }
    ensures within { IfOk result
        (λ made. ScansWithinLimits (so_far merger.new) (scanned_model made)) }
    ensures ended { OnOk result ((stop_in merger.new ≡ None) × HasEnded merger.new
        × (S.model shelf.new ≡ S.model shelf.old)) }

    // Why not all lines were scanned.
    ensures stops { Observed (S.model shelf.old) (λ seen. stop_in merger.old ≡ None →
        IfErr result (λ stop. ScanEndsEarly stop (so_far merger.old) (so_far merger.new)
        (to_come seen merger.old))) }
    ensures reads { stop_in merger.old ≡ None →
        ReadsShelf (S.model shelf.old) (S.model shelf.new) result }
    ensures blames { stop_in merger.old ≡ None →
        IfErr result (λ stop. LeavesStop stop (stop_in merger.new)) }
    ensures blamed { Observed (S.model shelf.old) (λ seen. KnowsReaders seen merger.old →
        stop_in merger.old ≡ None → BlamesFile (name_of_file (so_far merger.new).names)
        (S.model shelf.old) (S.model shelf.new) result) }
    ensures again { IfSome (stop_in merger.old) (λ stop.
        (result ≡ Err stop) × (merger.new ≡ merger.old) × (shelf.new ≡ shelf.old)) }
    ensures named { IfErr result (λ stop. files_named stop ≤ length (so_far merger.new).names) }
{
    if let Some(stop) = merger.stopped() {
        return Err(stop);
    }
    let mut line = Vec::new(alloc);
    let mut reader = Reader::new(alloc);
    take_lines(merger, shelf, &mut line, &mut reader)?;
    match finished(reader) {
        Ok(made) => Ok(made),
        Err(_) => Err(merger.halt()),
    }
}
