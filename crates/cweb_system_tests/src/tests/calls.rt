// Random calls.
use super::both::{Both, PathPair};
use cweb_system::FileSystem;
use rand_core::utils::NextWord;
use rand_pcg::Pcg32;
use std::alloc::AllocError;

/// The owner can read each of them. A umask changes none.
const MODES: [u32; 4] = [0o600, 0o700, 0o400, 0o500];

const CHANGED_MODES: [u32; 4] = [0o644, 0o755, 0o400, 0o777];

const CONTENTS: [&str; 4] = ["", "x", "ab", "\x00\u{ff}long"];

/// A call. Open files have numbers.
#[derive(Drop, Debug)]
pub enum Call<'a> {
    Look(&'a PathPair),
    Follow(&'a PathPair),
    Open(&'a PathPair),
    Create(&'a PathPair, Option<u32>),
    KeyOf(usize),
    Read(usize, usize),
    Write(usize, &'static str),
    SetMode(usize, u32),
    Rename(&'a PathPair, &'a PathPair),
    Remove(&'a PathPair),
}

/// A random number below `bound`, or 0.
fn below(random: &mut Pcg32, bound: usize) -> usize {
    let word: u32 = random.next_word();
    (word as usize).checked_rem(bound).unwrap_or(0)
}

fn any_of<'a, T>(random: &mut Pcg32, items: &'a [T]) -> Option<&'a T> {
    let number = below(random, items.len());
    items.get(number)
}

fn mode_of(random: &mut Pcg32) -> Option<u32> {
    match below(random, 3) {
        0 => None,
        _ => any_of(random, &MODES).copied(),
    }
}

/// A random call. `None`: there are no paths.
pub fn random_call<'a>(random: &mut Pcg32, paths: &'a [PathPair]) -> Option<Call<'a>> {
    let path = any_of(random, paths)?;
    let number = below(random, 4);
    Some(match below(random, 16) {
        0 => Call::Look(path),
        1 => Call::Follow(path),
        2 | 3 => Call::Open(path),
        4 | 5 | 6 => Call::Create(path, mode_of(random)),
        7 => Call::KeyOf(number),
        8 => Call::Read(number, below(random, 4)),
        9 | 10 => Call::Write(number, any_of(random, &CONTENTS)?),
        11 => Call::SetMode(number, *any_of(random, &CHANGED_MODES)?),
        12 | 13 | 14 => Call::Rename(path, any_of(random, paths)?),
        _ => Call::Remove(path),
    })
}

/// Makes a call on both sides. Returns whether they answer alike.
pub fn take<F: FileSystem + Drop>(both: &mut Both<F>, call: &Call<'_>) -> Result<bool, AllocError> {
    Ok(match call {
        Call::Look(path) => both.look(path),
        Call::Follow(path) => both.follow(path),
        Call::Open(path) => both.open(path)?,
        Call::Create(path, mode) => both.create(path, *mode)?,
        Call::KeyOf(number) => both.key_of(*number),
        Call::Read(number, count) => both.read(*number, *count),
        Call::Write(number, text) => both.write(*number, text.as_bytes()),
        Call::SetMode(number, mode) => both.set_mode(*number, *mode),
        Call::Rename(from, to) => both.rename(from, to),
        Call::Remove(path) => both.remove(path),
    })
}
