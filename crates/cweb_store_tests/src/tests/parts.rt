// Parts, macros, their tokens and layout.
use super::*;

#[test]
fn parts_and_their_tokens(rt: HostRuntime) -> Result<(), Fail> {
    const EXAMPLES: &[(&str, &str)] = &[
        // two parts of a name with one of the program between them; the last part is still open
        (
            "full A; part 0; word one; word two; close; program; word program; close; full A; part 1; word three",
            "A: one two: three; program: program; macros; files; faults",
        ),
        // every kind of token
        (
            "full A; program; word word; number 1; literal c; verbatim v; sign +; blank; newline; join; name 0; head 3; tail 4; mark 17; defs; close",
            "A; program: word number 1 literal c verbatim v sign + blank newline join name 0 head 3 tail 4 mark 17 defs; macros; files; faults missing 0",
        ),
        // dropped layout
        (
            "program; blank; word x; blank; newline; mark 7; drop; word y; newline; close; program; newline; blank; drop; close",
            "program: blank x y newline:; macros; files; faults",
        ),
        // a Mark keeps its place after others were dropped, and in the next part
        (
            "program; mark 3; word x; mark 4; newline; mark 5; drop; mark 6; word y; mark 7; drop; word z; mark 8; close; program; mark 9; drop; mark 10; blank; mark 11; close",
            "program: mark 3 x mark 6 y z mark 8: mark 10 blank mark 11; macros; files; faults",
        ),
        // dropped layout of macros, which keep their first two tokens
        (
            "macro; word a; drop; close; macro; word b; blank; drop; word x; close; macro; word c; blank; blank; drop; word x; close",
            "program; macros: a: b blank x: c blank x; files; faults",
        ),
        // a macro loses its trailing Newlines, and then one Blank
        (
            "macro; word a; blank; newline; newline; close; macro; word b; blank; blank; close; macro; word c; newline; blank; close",
            "program; macros: a: b blank: c newline; files; faults",
        ),
    ];
    examples_show(&rt, rt.alloc(), EXAMPLES)
}

/// The first uses of these ranges.
pub fn has_uses(rt: &impl Abort, store: &Store, text: &str) {
    let mut expected = Expected::new(text);
    expected.compare_next_use(store, 0, 5);
    expected.compare_next_use(store, 3, 5);
    expected.compare_next_use(store, 0, 1);
    expected.compare_next_use(store, 5, 6);
    is_met(rt, &expected, text);
}

// A part with two uses, the ranges after and before the first use, and a part without uses.
#[test]
fn first_uses(rt: HostRuntime) -> Result<(), Fail> {
    const CASE: ShownStore = ShownStore {
        example: "full A; program; word x; blank; name 0; blank; name 0; close; program; word y; close",
        aspect: Aspect::Uses,
        text: " 2 4 1 6",
    };
    check(&rt, rt.alloc(), &CASE)
}
