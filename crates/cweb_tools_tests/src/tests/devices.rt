// Runs over failing devices, with each call failing in turn. Consecutive runs with the same effect are listed once.
use super::expected::Expected;
use super::failing::FailingBins;
use super::tangling::Tangle;
use super::wanted::holds;
use cweb_out::Bins;
use std::alloc::{AllocError, Global};
use std::process::Abort;
use std::slice;

/// Two outputs and a fault, and a change file without entries.
const SOURCES: &[(&str, &[u8])] = &[("f.w", b"@ @d M 1\n@(a.h@>=\nint m=\"x\n"), ("i.ch", b"")];

/// More calls than a run makes.
const CALLS: u64 = 400;

#[derive(Clone, Copy)]
enum Device {
    Bins,
    /// Bins that already have a file of the main output's name.
    OldBins,
    Shelf,
    Log,
}

/// Makes a device fail after `good` calls.
fn weaken(run: &mut Tangle, device: Device, good: u64) {
    match device {
        Device::Bins => run.bins.good = good,
        Device::OldBins => {
            put_old_file(&mut run.bins);
            run.bins.good = good;
        }
        Device::Shelf => {
            run.shelf.most = 3;
            run.shelf.fails_at = good.saturating_add(1);
        }
        Device::Log => {
            run.log.most = 2;
            run.log.fails_at = good.saturating_add(1);
        }
    }
}

fn put_old_file(bins: &mut FailingBins) {
    bins.failed = 0;
    if bins.start_file("f.c").is_ok() {
        let _ = bins.commit_file();
    }
}

/// The effect of a run whose device fails after `good` calls.
fn left(alloc: Global, words: &[&str], device: Device, good: u64) -> Result<Tangle, AllocError> {
    let mut run = Tangle::over(alloc, SOURCES)?;
    weaken(&mut run, device, good);
    run.run(alloc, words);
    Ok(run)
}

/// Whether a run had this effect. The log is not compared if it is the failing device, or if there is an old file.
fn has_left(run: &Tangle, device: Device, text: &str) -> bool {
    let mut expected = Expected::new(text.as_bytes());
    if matches!(device, Device::Bins | Device::Shelf) {
        expected.feed(run.log.bytes());
    }
    run.feed_files(&mut expected);
    expected.is_met()
}

/// The effect of a run: that of the previous one, or the next in the list.
fn next_left<'a>(
    rt: &impl Abort,
    run: &Tangle,
    device: Device,
    last: &'a str,
    to_come: &mut slice::Iter<'a, &'a str>,
) -> &'a str {
    if has_left(run, device, last) {
        return last;
    }
    let next = *to_come.next().expect(rt, "no more is to come");
    holds(rt, has_left(run, device, next));
    next
}

/// Checks that the runs have these effects in order.
fn check_left(rt: &(impl Abort + AllocGlobal), words: &[&str], device: Device, texts: &[&str]) {
    let mut last = "";
    let mut to_come = texts.iter();
    for good in 0..CALLS {
        let run = left(rt.alloc(), words, device, good).expect(rt, "memory");
        last = next_left(rt, &run, device, last, &mut to_come);
        drop(run);
    }
    holds(rt, to_come.next().is_none());
}

#[test]
fn each_call_of_the_bins_fails(rt: HostRuntime) {
    const LEFT: &[&str] = &[
        "f.w:3: ! String did not end\n! Cannot open output file f.c\n== 1\n",
        "f.w:3: ! String did not end\n! Write fault on f.c\n== 1\n",
        "f.w:3: ! String did not end\n! Cannot open output file a.h\n== f.c\n#define M 1\n== 1\n",
        "f.w:3: ! String did not end\n! Write fault on a.h\n== f.c\n#define M 1\n== 1\n",
        "f.w:3: ! String did not end\n== f.c\n#define M 1\n== a.h\n/*1:*/\n#line 2 \"f.w\"\n\nint m=\"x/*:1*/\n== 1\n",
    ];
    check_left(&rt, &["-bph", "f"], Device::Bins, LEFT);
}

#[test]
fn old_file_stays_until_commit(rt: HostRuntime) {
    const LEFT: &[&str] = &[
        "== f.c\n== 1\n",
        "== f.c\n#define M 1\n== 1\n",
        "== f.c\n#define M 1\n== a.h\n/*1:*/\n#line 2 \"f.w\"\n\nint m=\"x/*:1*/\n== 1\n",
    ];
    check_left(&rt, &["-bph", "f"], Device::OldBins, LEFT);
}

#[test]
fn each_read_fails(rt: HostRuntime) {
    const LEFT: &[&str] = &[
        "! Read fault on i.ch\n== 1\n",
        "! Read fault on f.w\n== 1\n",
        "f.w:3: ! String did not end\n== f.c\n#define M 1\n== a.h\n/*1:*/\n#line 2 \"f.w\"\n\nint m=\"x/*:1*/\n== 1\n",
    ];
    check_left(&rt, &["-bph", "f", "i"], Device::Shelf, LEFT);
}

#[test]
fn each_write_of_the_log_fails(rt: HostRuntime) {
    const LEFT: &[&str] = &[
        "== 1\n",
        "== f.c\n#define M 1\n== 1\n",
        "== f.c\n#define M 1\n== a.h\n/*1:*/\n#line 2 \"f.w\"\n\nint m=\"x/*:1*/\n== 1\n",
    ];
    check_left(&rt, &["f"], Device::Log, LEFT);
}
