// The comparison.
use super::both::{Both, PathPair};
use super::calls::{Call, random_call, take};
use super::layout::{memory_like, new_folder, remove_folder};
use super::paths::all_paths;
use cweb_system::{FileSystem, StdFolder};
use rand_pcg::Pcg32;
use std::alloc::AllocError;
use std::process::Abort;
use std::rt::{Env, Files};
use std::test::Fail;

/// How many sequences of calls there are, and how long each is.
const SEQUENCES: u64 = 100;

const CALLS: usize = 100;

/// Fails with the call that both sides answer differently.
fn hold_alike(rt: &impl Abort, alike: bool, seed: u64, call: &Call<'_>) {
    assert!(rt; alike, "seed {seed}: {call:?}");
}

/// Fails with the path where both sides differ after a call.
fn hold_same(rt: &impl Abort, difference: Option<&PathPair>, seed: u64, call: &Call<'_>) {
    assert!(rt;
        difference.is_none(),
        "seed {seed}: {call:?} leaves {difference:?}"
    );
}

/// A sequence of random calls.
fn compare<F: FileSystem + Drop>(
    rt: &impl Abort,
    both: &mut Both<F>,
    paths: &[PathPair],
    seed: u64,
) -> Result<(), AllocError> {
    for path in paths {
        both.pair_first(path)?;
    }
    let mut random = Pcg32::new(seed, 1);
    for _ in 0..CALLS {
        let Some(call) = random_call(&mut random, paths) else {
            break;
        };
        hold_alike(rt, take(both, &call)?, seed, &call);
        hold_same(rt, both.first_difference(paths), seed, &call);
    }
    Ok(())
}

fn compare_all<F: FileSystem + Drop>(
    rt: &impl Abort,
    both: &mut Both<F>,
    top: &str,
    seed: u64,
) -> Result<(), AllocError> {
    let paths = all_paths(both.alloc, top)?;
    let compared = compare(rt, both, &paths, seed);
    drop(paths);
    compared
}

/// A sequence of random calls in a folder that is laid out.
fn compare_in<F: FileSystem + Drop>(
    rt: &(impl Abort + AllocGlobal),
    mut real: F,
    top: &str,
    seed: u64,
) -> Result<(), Fail> {
    let memory = memory_like(rt.alloc(), &mut real, top)?;
    let mut both = Both::new(rt.alloc(), real, memory);
    let compared = compare_all(rt, &mut both, top, seed);
    drop(both);
    Ok(compared?)
}

/// A sequence of random calls in a new folder.
fn compare_in_folder(
    host: &HostRuntime,
    rt: &(impl Abort + Env + Files + AllocGlobal),
    seed: u64,
) -> Result<(), Fail> {
    let top = new_folder(rt)?;
    let real = StdFolder::new(rt.alloc(), host);
    compare_in(rt, real, top.as_str(), seed)?;
    remove_folder(rt, top.as_str())?;
    Ok(())
}

#[test]
fn kernel_and_memory_answer_alike(rt: HostRuntime) -> Result<(), Fail> {
    for seed in 0..SEQUENCES {
        compare_in_folder(&rt, &rt, seed)?;
    }
    Ok(())
}
