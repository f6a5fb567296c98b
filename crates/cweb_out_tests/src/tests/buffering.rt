// Buffered printing writes the same bytes as printing token by token, in few writes.
ghost use Rattle.std.specs.Prelude.{◌<◌, length, vec_capacity};
ghost use Rattle.cweb_out.specs.surface.FrameStacks.{IsFrameStack};
ghost use Rattle.cweb_out.specs.surface.Outputs.{IsPlanOf};

use super::cases::{Case, check};
use super::long_webs::{chain, repeated};
use super::reports::{MANY, is_named, print_file};
use super::wanted::{holds, same_bytes, same_number};
use cweb_files::{Sink, SinkFault};
use cweb_lines::FileNames;
use cweb_out::{Expander, OutBuffer, Plan, Printer, plan};
use cweb_store::Store;
use std::alloc::{AllocError, Global};
use std::process::Abort;
use trial::TrialSink;

// The size of the buffer.
const ROOM: usize = 65_792;

/// Prints the remaining tokens of an expander through a buffer.
fn print_file_buffered<W: Sink>(
    rt: &impl Abort,
    expander: &mut Expander<'_>,
    names: &FileNames,
    buffered: &mut OutBuffer,
    out: &mut W,
) -> Result<(), SinkFault>
    requires { IsFrameStack expander.old.store.now expander.old.frames.items
        (vec_capacity expander.old.frames) }
{
    let mut printer = Printer::new(expander.store, names);
    'tokens: for _ in 0..MANY {
        expander.append(&mut printer, buffered);
        let Some(token) = expander.next() else {
            break;
        };
        holds(rt, is_named(names, &token));
        holds(rt, out.failures() < 1000);
        printer.append(token, buffered, out)?;
    }
    holds(rt, out.failures() < 1000);
    printer.finish(buffered, out)
}

/// Prints them through a buffer of its own.
pub fn print_all_buffered<W: Sink>(
    rt: &impl Abort,
    alloc: Global,
    expander: &mut Expander<'_>,
    names: &FileNames,
    out: &mut W,
) -> Result<Result<(), SinkFault>, AllocError>
    requires { IsFrameStack expander.old.store.now expander.old.frames.items
        (vec_capacity expander.old.frames) }
{
    let mut buffered = OutBuffer::new(alloc)?;
    Ok(print_file_buffered(rt, expander, names, &mut buffered, out))
}

// The number of bytes and writes of a buffered file. The bytes must equal those that are printed token by token.
#[derive(Drop)]
struct Sizes {
    bytes: usize,
    writes: u64,
}

impl Case for Sizes {
    fn look<A: Abort>(&self, rt: &A, alloc: Global, store: &Store, names: &FileNames) {
        match plan(alloc, store, "f.c") {
            Ok(plan) => printed(rt, alloc, store, &plan, names, self),
            Err(_) => holds(rt, false),
        }
    }
}

fn printed(
    rt: &impl Abort,
    alloc: Global,
    store: &Store,
    plan: &Plan,
    names: &FileNames,
    sizes: &Sizes,
)
    requires { IsPlanOf store.now plan.now }
{
    holds(rt, plan.outputs() > 0);
    let chunks = buffered(rt, alloc, store, plan, names);
    let tokens = token_by_token(rt, alloc, store, plan, names);
    same_bytes(rt, chunks.bytes(), tokens.bytes());
    holds(rt, chunks.bytes().len() == sizes.bytes);
    same_number(rt, chunks.writes, sizes.writes);
    holds(rt, are_few(chunks.writes, sizes.bytes));
}

// At most a write for each 65,536 bytes, and two more.
fn are_few(writes: u64, bytes: usize) -> bool {
    writes <= (bytes as u64 / 65_536).saturating_add(2)
}

// The first output of a plan, buffered.
fn buffered(
    rt: &impl Abort,
    alloc: Global,
    store: &Store,
    plan: &Plan,
    names: &FileNames,
) -> TrialSink
    requires some { 0 < length plan.now.outputs }
    requires made { IsPlanOf store.now plan.now }
{
    let mut expander = Expander::new(alloc, store, plan, 0).expect(rt, "memory");
    let mut chunks = TrialSink::new(alloc);
    let buffered = print_all_buffered(rt, alloc, &mut expander, names, &mut chunks);
    holds(rt, buffered == Ok(Ok(())));
    chunks
}

// The first output of a plan, token by token.
fn token_by_token(
    rt: &impl Abort,
    alloc: Global,
    store: &Store,
    plan: &Plan,
    names: &FileNames,
) -> TrialSink
    requires some { 0 < length plan.now.outputs }
    requires made { IsPlanOf store.now plan.now }
{
    let mut expander = Expander::new(alloc, store, plan, 0).expect(rt, "memory");
    let mut tokens = TrialSink::new(alloc);
    holds(
        rt,
        print_file(rt, &mut expander, names, &mut tokens).is_ok(),
    );
    tokens
}

// The number of bytes and writes of a web's file.
fn takes(rt: &impl Abort, alloc: Global, web: &[u8], bytes: usize, writes: u64) {
    check(rt, alloc, web, &Sizes { bytes, writes });
}

// The number of bytes and writes for a web of repeated words.
fn takes_repeated(
    rt: &impl Abort,
    alloc: Global,
    web: (&str, &str, usize, &str),
    bytes: usize,
    writes: u64,
) {
    let web = repeated(alloc, web.0, web.1, web.2, web.3).expect(rt, "memory");
    takes(rt, alloc, web.as_bytes(), bytes, writes);
}

// A short Word is copied in one or two moves, depending on its length. Adjacent letters of it differ.
#[test]
fn a_word_of_each_length(rt: HostRuntime) {
    const LETTERS: &str = "abcdefghijklmnopqrstuvwxyzabcdefghijklm";
    for size in 1..40_usize {
        let letters = LETTERS.get(..size).unwrap_or("");
        takes_repeated(&rt, rt.alloc(), (": w", letters, 1, ""), size + 1, 1);
    }
}

// What doesn't fit fills the buffer, which is flushed. If the rest is longer than the buffer, it is written at once.
#[test]
fn a_word_at_the_end_of_the_room(rt: HostRuntime) {
    const EXAMPLES: &[(usize, u64)] = &[
        (ROOM - 3, 1),
        (ROOM - 2, 1),
        (ROOM - 1, 2),
        (ROOM, 2),
        (3 * ROOM, 3),
    ];
    for (size, writes) in EXAMPLES {
        let web = (": wa v", "x", *size, "");
        takes_repeated(&rt, rt.alloc(), web, size.saturating_add(2), *writes);
    }
}

// The line of a macro with 40,000 numbers is longer than the buffer.
#[test]
fn a_macro_across_the_end_of_the_room(rt: HostRuntime) {
    let web = ("# wtable _", " n0 p,", 40_000, " : wx");
    takes_repeated(&rt, rt.alloc(), web, 80_017, 2);
}

// The lines of 10,000 macros.
#[test]
fn macros_across_the_end_of_the_room(rt: HostRuntime) {
    let web = ("", "# wN _ n1 ", 10_000, ": wx");
    takes_repeated(&rt, rt.alloc(), web, 120_002, 2);
}

// Five literals, each of which takes more than half of the buffer.
#[test]
fn long_literals_across_the_end_of_the_room(rt: HostRuntime) {
    let web = (": <A <A <A <A <A =A l", "x", 40_000, "");
    takes_repeated(&rt, rt.alloc(), web, 200_001, 4);
}

// Words of two bytes with a blank between them.
#[test]
fn words_across_the_end_of_the_room(rt: HostRuntime) {
    takes_repeated(&rt, rt.alloc(), (":", " wab", 50_000, ""), 150_000, 3);
}

// Section comments of six bytes, a Word and a Newline.
#[test]
fn comments_across_the_end_of_the_room(rt: HostRuntime) {
    let web = (":", " [7 wx ]7 $", 10_000, "");
    takes_repeated(&rt, rt.alloc(), web, 140_000, 3);
}

// Names that expand to nothing, and a name with two parts.
#[test]
fn names_without_tokens_and_names_of_two_parts(rt: HostRuntime) {
    takes(&rt, rt.alloc(), b": <A <B p; <A =A wx <B =C =A wy <C", 8, 1);
}

// A name of two bytes that is used many times.
#[test]
fn uses_across_the_end_of_the_room(rt: HostRuntime) {
    let web = (":", " <A", 50_000, " =A wx p;");
    takes_repeated(&rt, rt.alloc(), web, 100_001, 2);
}

// Names with one token each. Each name uses the next one.
#[test]
fn a_chain_across_the_end_of_the_room(rt: HostRuntime) {
    let web = chain(rt.alloc(), 9_999, 1, " wabcdefghi", " p;").expect(&rt, "memory");
    takes(&rt, rt.alloc(), web.as_bytes(), 99_991, 2);
}

// Section comments after operators, with a blank before each.
#[test]
fn comments_after_operators(rt: HostRuntime) {
    let web = (":", " p+ [7 p- ]7 $", 10_000, "");
    takes_repeated(&rt, rt.alloc(), web, 170_000, 3);
}

// Line marks of 14 bytes, a Word and a Newline. Marks after a join are dropped.
#[test]
fn marks_across_the_end_of_the_room(rt: HostRuntime) {
    let web = (":", " m7 wx $", 10_000, "");
    takes_repeated(&rt, rt.alloc(), web, 160_000, 3);
    let joined = (":", " m7 wx & m8 [9 m9 wy", 5_000, "");
    takes_repeated(&rt, rt.alloc(), joined, 120_000, 2);
}
