// Webs with a thousand nested names, long lines, many lines, and every byte.
use super::*;
use cweb_rules::{ScanFault, ScanKind};

// Bytes repeated `times` times.
fn repeated(alloc: Global, text: &[u8], times: usize) -> Result<Vec<u8>, AllocError> {
    let mut whole = Vec::new(alloc);
    for _ in 0..times {
        whole.extend_from_slice(text)?;
    }
    Ok(whole)
}

// A web of a prefix, a repeated middle and a suffix.
fn long_web(
    alloc: Global,
    prefix: &[u8],
    middle: &[u8],
    times: usize,
    back: &[u8],
) -> Result<Vec<u8>, AllocError> {
    let mut web = Vec::new(alloc);
    web.extend_from_slice(prefix)?;
    web.extend_from_slice(&repeated(alloc, middle, times)?)?;
    web.extend_from_slice(back)?;
    Ok(web)
}

// The number of tokens, faults and bytes of strings of a web with this prefix.
#[derive(Clone, Copy)]
struct Sizes<'a> {
    prefix: &'a [u8],
    sizes: (u32, usize, u64),
}

impl Case<Fail> for Sizes<'_> {
    fn look<A: AllocGlobal + Abort>(&self, rt: &A, made: &Scanned) -> Result<(), Fail> {
        let store = &made.store;
        let sizes = (store.tokens(), made.faults.len(), store.text_bytes());
        same_sizes(rt, sizes, self.sizes, self.prefix);
        Ok(())
    }
}

// All faults but the last one are of nested names.
fn names_nest(rt: &impl Abort, faults: &[ScanFault]) {
    holds(rt, faults.len() == 1000);
    for (number, fault) in faults.iter().enumerate() {
        let kind = if number < 999 {
            ScanKind::NamesDoNotNest
        } else {
            ScanKind::NameDidNotEnd
        };
        holds(rt, fault.kind == kind);
    }
}

// A thousand nested names.
#[derive(Clone, Copy)]
struct Nested;

impl Case<Fail> for Nested {
    fn look<A: AllocGlobal + Abort>(&self, rt: &A, made: &Scanned) -> Result<(), Fail> {
        names_nest(rt, made.faults.as_slice());
        holds(rt, made.store.tokens() == 2003);
        holds(rt, made.store.names() == 1);
        holds(rt, made.store.name_faults().len() == 1);
        Ok(())
    }
}

#[test]
fn a_thousand_nested_names(rt: HostRuntime) -> Result<(), Fail> {
    let web = long_web(rt.alloc(), b"@ @c ", b"@<", 1000, b"\n")?;
    check(&rt, &[("a.w", &web)], None, &Nested)
}

// The length of the longest line that a merger accepts.
const LONGEST: usize = 1_048_575;

// A line's prefix, repeated middle, count and suffix; the expected tokens, faults and bytes of strings.
type LongLine = (
    &'static [u8],
    &'static [u8],
    usize,
    &'static [u8],
    u32,
    usize,
    usize,
);

const LONG_LINES: &[LongLine] = &[
    (b"", b"x", LONGEST, b"", 0, 0, 0),
    (b"@ ", b"x", LONGEST - 2, b"", 0, 0, 0),
    (b"@ @c ", b"x", LONGEST - 5, b"", 4, 0, LONGEST - 5),
    (b"@ @c ", b"7", LONGEST - 5, b"", 4, 0, LONGEST - 5),
    (b"@ @c ", b" ", LONGEST - 6, b";", 4, 0, 1),
    (b"@ @c /*", b"*", LONGEST - 8, b"/", 3, 0, 0),
    (b"@ @c //", b"*", LONGEST - 7, b"", 3, 0, 0),
    (b"@ @c \"", b"x", LONGEST - 7, b"\"", 4, 0, LONGEST - 5),
    (b"@ @c \"", b"x", LONGEST - 6, b"", 4, 1, LONGEST - 5),
    (b"@ @c R\"(", b")", LONGEST - 9, b"\"", 4, 0, LONGEST - 5),
    (b"@ @c @<", b"x", LONGEST - 9, b"@>", 5, 0, LONGEST - 9),
    (b"@ @c @=", b"x", LONGEST - 9, b"@>", 4, 0, LONGEST - 9),
    (b"@ @c @t", b"x", LONGEST - 9, b"@>", 3, 0, 0),
    (b"@ @c @'", b"x", LONGEST - 7, b"", 3, 1, 0),
    (
        b"@ @c #include<",
        b"x",
        LONGEST - 15,
        b">",
        6,
        0,
        LONGEST - 5,
    ),
    (b"@ @c #include", b"<", LONGEST - 13, b"", 524_286, 0, 10),
    (b"@ @d m ", b"x", LONGEST - 7, b"", 3, 0, LONGEST - 6),
];

// Checks the sizes of such a web. Returns its length.
fn check_sizes(rt: &(impl AllocGlobal + Abort), line: &LongLine) -> Result<usize, Fail> {
    let (prefix, middle, times, back, tokens, faults, bytes) = *line;
    let web = long_web(rt.alloc(), prefix, middle, times, back)?;
    let sizes = (tokens, faults, bytes as u64);
    check(rt, &[("a.w", &web)], None, &Sizes { prefix, sizes })?;
    Ok(web.len())
}

#[test]
fn lines_of_a_million_bytes(rt: HostRuntime) -> Result<(), Fail> {
    for line in LONG_LINES {
        let length = check_sizes(&rt, line)?;
        holds(&rt, length == LONGEST);
    }
    Ok(())
}

// The prefix of a million empty lines; the expected tokens, faults and bytes of strings.
const EMPTY_LINES: &[LongLine] = &[
    (b"", b"\n", 1_000_000, b"", 0, 0, 0),
    (b"@ @c", b"\n", 1_000_000, b"", 1_000_002, 0, 0),
    (b"@ @c /*", b"\n", 1_000_000, b"", 1_000_002, 1, 0),
    (b"@ @c @<", b"\n", 1_000_000, b"", 5, 1, 0),
    (b"@ @c R\"(", b"\n", 1_000_000, b"", 4, 1, 1_000_002),
    (b"@ @d m", b"\n", 1_000_000, b"", 1, 0, 1),
    (b"@ @d", b"\n", 1_000_000, b"", 0, 1, 0),
];

#[test]
fn many_empty_lines(rt: HostRuntime) -> Result<(), Fail> {
    for line in EMPTY_LINES {
        check_sizes(&rt, line)?;
    }
    Ok(())
}

// Byte 0 and bytes from 128 on, in each item.
const NUL_AND_HIGH_BYTES: &[(&[u8], &str)] = &[
    (b"\x00\xff@q\x00\xff@>@ \x00\xff@\x00@\xff", ""),
    (b"@\x00@\xff", "DoubleAtInLimbo 1 DoubleAtInLimbo 1 "),
    (b"@l\x00fc a", "ImproperHexNumber 1 "),
    (b"@l fc\xff", "ImproperHexNumber 1 "),
    (b"@l fc \xff", "fc= "),
    (
        b"@ @c \x00\xff\x01 /*\x00\xff*/ //\x00\xff\n\"\x00\xff\" R\"\x00\xff(\x00\xff)\x00\xff\" @=\x00\xff@>@t\x00\xff@>",
        "[program] head:1 at:1 p:{00} w:{ff} p:{01} / l:\"{00}{ff}\" l:R\"{00}{ff}({00}{ff}){00}{ff}\" v:{00}{ff} tail:1 ",
    ),
    (
        b"@ @c @\x00@\xff@'\x00'@'\xff'1\x80\x00",
        "[program] head:1 at:1 n:0 n:1{80} p:{00} tail:1 FaultyConstant 1 ",
    ),
    (b"@ @d \x00", "DefinitionDropped 1 "),
    (b"@ @d \x80\x00", "[macro] w:{80} _ p:{00} "),
    (b"@ @<\x00@>\xff=", ""),
];

#[test]
fn nul_and_high_bytes(rt: HostRuntime) -> Result<(), Fail> {
    check_each(&rt, NUL_AND_HIGH_BYTES)
}
