// Names of sections, and the part openers after them.
use super::*;

const OPENERS_AFTER_NAMES: &[(&[u8], &str)] = &[
    (b"@ @<A@>=x", "[<A>] head:1 at:1 w:x tail:1 "),
    (b"@ @<A@> \t +=x", "[<A>] head:1 at:1 w:x tail:1 "),
    (b"@ @<A@>= =x", "[<A>] head:1 at:1 p:= w:x tail:1 "),
    // no part openers
    (b"@ @<A@>==x", ""),
    (b"@ @<A@>+==x", ""),
    (b"@ @<A@>+x", ""),
    (b"@ @<A@>\n=x", ""),
    (b"@ @<A@>\x0b=x", ""),
    // in C text a name is a use
    (
        b"@ @c @<A@>=x",
        "[program] head:1 at:1 <A> at:1 p:= w:x tail:1 MissingAt 1 NotPresent <A> ",
    ),
    (
        b"@ @c @<A@> += x",
        "[program] head:1 at:1 <A> at:1 p:+= w:x tail:1 MissingAt 1 NotPresent <A> ",
    ),
    (
        b"@ @c @<A@>==x",
        "[program] head:1 at:1 <A> at:1 p:== w:x tail:1 NotPresent <A> ",
    ),
    (
        b"@ @(f@>=\n@(f@>",
        "[<f>] head:1 at:1 / <f> at:2 tail:1 file <f> ",
    ),
];

const SPELLING: &[(&[u8], &str)] = &[
    (
        b"@ @<  a \t b\x0bc\n d @>=x",
        "[<a b c d>] head:1 at:2 w:x tail:1 ",
    ),
    // blanks are squeezed
    (b"@ @<a b c@>=x", "[<a b c>] head:1 at:1 w:x tail:1 "),
    (b"@ @<a b  c@>=x", "[<a b c>] head:1 at:1 w:x tail:1 "),
    (b"@ @<a\tb@>=x", "[<a b>] head:1 at:1 w:x tail:1 "),
    (b"@ @< a@>=x", "[<a>] head:1 at:1 w:x tail:1 "),
    (b"@ @<a @>=x", "[<a>] head:1 at:1 w:x tail:1 "),
    (b"@ @<a@@b@>=x", "[<a@b>] head:1 at:1 w:x tail:1 "),
    (b"@ @<a@@>b@>=x", "[<a@>b>] head:1 at:1 w:x tail:1 "),
    (b"@ @<a@xb@>=x", "[<a@xb>] head:1 at:1 w:x tail:1 "),
    (b"@ @<a@\x0b b@>=x", "[<a@ b>] head:1 at:1 w:x tail:1 "),
    (
        b"@ @<a\x00\xffb@>=x",
        "[<a{00}{ff}b>] head:1 at:1 w:x tail:1 ",
    ),
    // abbreviations
    (b"@ @<...@>=x", "[<...>] head:1 at:1 w:x tail:1 "),
    (
        b"@ @<abc@>=x @<a...@>@< abc... @>",
        "[<abc>] head:1 at:1 w:x <abc> at:1 <abc> at:1 tail:1 ",
    ),
    (
        b"@ @<abc@>=x @<a ...@>",
        "[<abc>] head:1 at:1 w:x <?> at:1 tail:1 NeverFull <a > ",
    ),
];

const NAMES_THAT_DID_NOT_END: &[(&[u8], &str)] = &[
    (
        b"@ @<A@<B@>=x",
        "[<B>] head:1 at:1 w:x tail:1 NamesDoNotNest 1 ",
    ),
    (
        b"@ @<A@(f@>=x",
        "[<f>] head:1 at:1 w:x tail:1 file <f> NamesDoNotNest 1 ",
    ),
    (
        b"@ @c @<A\n@<B@>",
        "[program] head:1 at:1 <A> at:2 <B> at:2 tail:1 NamesDoNotNest 1 NotPresent <A> NotPresent <B> ",
    ),
    (
        b"@ @c @<A\nb@ x",
        "[program] head:1 at:1 <A b> at:2 tail:1 NameDidNotEnd 1 NotPresent <A b> ",
    ),
    // no part opener belongs to such a name
    (
        b"@ @<A@ @<B@>=x",
        "[<B>] head:2 at:1 w:x tail:2 NameDidNotEnd 1 ",
    ),
    (
        b"@ @c @<A\n\n",
        "[program] head:1 at:1 <A> at:2 tail:1 NameDidNotEnd 1 NotPresent <A> ",
    ),
    (
        b"@ @c @<A...\n",
        "[program] head:1 at:1 <?> at:1 tail:1 NameDidNotEnd 1 NeverFull <A> ",
    ),
];

#[test]
fn names(rt: HostRuntime) -> Result<(), Fail> {
    const TABLES: &[Table] = &[OPENERS_AFTER_NAMES, SPELLING, NAMES_THAT_DID_NOT_END];
    check_all(&rt, TABLES)
}
