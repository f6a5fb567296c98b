// Names, abbreviations, files and their faults.
use super::*;

/// The resolutions of three occurrences.
pub fn shows_resolutions(rt: &impl Abort, store: &Store, text: &str) {
    let mut expected = Expected::new(text);
    expected.compare_resolutions(store);
    is_met(rt, &expected, text);
}

fn example_resolves(rt: &impl Abort, alloc: Global, example: &str, text: &str) -> Result<(), Fail> {
    let aspect = Aspect::Standings;
    check(
        rt,
        alloc,
        &ShownStore {
            example,
            aspect,
            text,
        },
    )
}

#[test]
fn abbreviations(rt: HostRuntime) -> Result<(), Fail> {
    const EXAMPLES: &[(&str, &str)] = &[
        (
            "prefix Glob; full Global variables; full Global variables",
            "000",
        ),
        (
            "prefix Glob; full Global variables; full Global types",
            "-01",
        ),
        (
            "full Global variables; prefix Glob; full Global types",
            "001",
        ),
        ("prefix Glob; prefix Glob; prefix Glob", "---"),
    ];
    for (example, text) in EXAMPLES {
        example_resolves(&rt, rt.alloc(), *example, *text)?;
    }
    Ok(())
}

#[test]
fn names_and_their_faults(rt: HostRuntime) -> Result<(), Fail> {
    const EXAMPLES: &[(&str, &str)] = &[
        // an abbreviation of two names
        (
            "prefix Glob; full Global variables; full Global types",
            "Global variables; Global types; program; macros; files; faults ambiguous 0",
        ),
        // an abbreviation of no name: the part's own name is unresolved, and its tokens still use a name
        (
            "prefix Zz; part 0; full B; name 1; close",
            "B; program; macros; files; faults never given 0 missing 1",
        ),
        // a prefix of another name
        (
            "full ab; part 0; word x; close; full abc; part 1; word y; close",
            "ab: x; abc: y; program; macros; files; faults prefix 0",
        ),
        // an empty name and an empty prefix
        (
            "full ; part 0; word ; close; prefix ; part 1; word y; close",
            ": : y; program; macros; files; faults",
        ),
        // files and what they lack
        (
            "full a.h; file b.h; file-prefix a; file b.h; part 2; word a; close",
            "a.h: a; b.h; program; macros; files 1 0; faults missing 1",
        ),
    ];
    examples_show(&rt, rt.alloc(), EXAMPLES)
}
