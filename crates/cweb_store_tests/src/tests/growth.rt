// Defs, replacements and counts of whole stores, and a store that outgrows each buffer.
use super::*;

// The store of each example has the expected counts.
fn count_each(rt: &impl Abort, alloc: Global, examples: &[(&str, &str)]) -> Result<(), Fail> {
    for (example, text) in examples {
        counts(rt, alloc, *example, *text)?;
    }
    Ok(())
}

#[test]
fn defs_in_a_part_of_the_program(rt: HostRuntime) -> Result<(), Fail> {
    const EXAMPLES: &[(&str, &str)] = &[
        ("macro; defs", "tokens 1; bytes 0"),
        ("program; defs", "tokens 1; bytes 0; defs"),
    ];
    count_each(&rt, rt.alloc(), EXAMPLES)
}

#[test]
fn later_replacements_win(rt: HostRuntime) -> Result<(), Fail> {
    counts(
        &rt,
        rt.alloc(),
        "byte 200 a; byte 201 b; byte 200 cd",
        "tokens 0; bytes 4; byte 200 cd; byte 201 b",
    )
}

// Each of three bytes is replaced 40 times.
#[derive(Clone, Copy)]
struct ReplacedOften;

impl Case for ReplacedOften {
    fn fill<A: Abort>(&self, rt: &A, example: &mut ExampleBuilder) -> Result<(), AllocError> {
        for _ in 0..39 {
            example.make_all(rt, "byte 128 a; byte 254 b; byte 255 c")?;
        }
        example.make_all(rt, "byte 255 g; byte 254 f; byte 128 de")
    }

    fn look<A: Abort>(&self, rt: &A, store: &Store) {
        let text = "tokens 0; bytes 121; byte 128 de; byte 254 f; byte 255 g";
        shows_counts(rt, store, text);
    }
}

#[test]
fn many_replacements_of_a_byte(rt: HostRuntime) -> Result<(), Fail> {
    check(&rt, rt.alloc(), &ReplacedOften)
}

// Equal Words, Numbers and Puncts are stored once, and so are equal spellings. Others are stored as often as they occur.
#[test]
fn bytes_of_strings(rt: HostRuntime) -> Result<(), Fail> {
    const EXAMPLES: &[(&str, &str)] = &[
        ("program; word foo; word foo; word foo", "tokens 3; bytes 3"),
        (
            "program; word foo; word bar; sign +; word foo; close; macro; word bar; word ba; word foo",
            "tokens 7; bytes 9",
        ),
        (
            "program; number 12; word 12; number 12; verbatim 12; literal 12; word 12",
            "tokens 6; bytes 6",
        ),
        ("program; word foo; sign +; sign +", "tokens 3; bytes 4"),
        (
            "program; sign ->; sign >>; sign ->; sign -; sign >; sign -; sign ->",
            "tokens 7; bytes 6",
        ),
        (
            "program; sign a; word a; sign a; number a",
            "tokens 4; bytes 1",
        ),
        (
            "program; sign ; sign ; sign ...; sign ...",
            "tokens 4; bytes 3",
        ),
        (
            "program; word foo; full a.h b; full a.h b",
            "tokens 1; bytes 8",
        ),
        (
            "program; full a b; prefix a; file a b; full a; prefix a b",
            "tokens 0; bytes 4",
        ),
        (
            "program; word foo; byte 200 cd",
            "tokens 1; bytes 5; byte 200 cd",
        ),
    ];
    count_each(&rt, rt.alloc(), EXAMPLES)
}

// 200 uses of a name, each in its own part.
#[derive(Clone, Copy)]
struct ManyParts;

impl Case for ManyParts {
    fn fill<A: Abort>(&self, rt: &A, example: &mut ExampleBuilder) -> Result<(), AllocError> {
        example.make_all(rt, "full A")?;
        for _ in 0..200 {
            example.make_all(rt, "part 0; word foo; close")?;
        }
        Ok(())
    }

    fn look<A: Abort>(&self, rt: &A, store: &Store) {
        shows_counts(rt, store, "tokens 200; bytes 4");
        has_parts(rt, store, 200);
    }
}

// The part has only the token at an index. Returns the next index.
fn part_is(rt: &impl Abort, part: Part, number: u32) -> u32 {
    holds(rt, number < 200);
    let next = number + 1;
    holds(rt, part.first == number && part.after == next);
    next
}

// The first name has this many parts of one token each, in order.
fn has_parts(rt: &impl Abort, store: &Store, parts: u32) {
    let mut count: u32 = 0;
    for part in store.parts(NameId(0)) {
        count = part_is(rt, part, count);
    }
    holds(rt, count == parts);
}

#[test]
fn many_parts_of_a_name(rt: HostRuntime) -> Result<(), Fail> {
    check(&rt, rt.alloc(), &ManyParts)
}
