// Comments, identifiers, numbers and punctuators.
use super::*;

const COMMENTS: &[(&[u8], &str)] = &[
    (
        b"@ @c a/*b*/c//d\ne",
        "[program] head:1 at:1 w:a w:c / w:e tail:1 ",
    ),
    (
        b"@ @c a/*/b*/c/**/d",
        "[program] head:1 at:1 w:a w:c w:d tail:1 ",
    ),
    (
        b"@ @c a/*@@*/b/*@/*/c//@@\nd//",
        "[program] head:1 at:1 w:a w:b w:c / w:d tail:1 ",
    ),
    (
        b"@ @c a/*b\n c\n*/d",
        "[program] head:1 at:1 w:a / / w:d tail:1 ",
    ),
    // a section start ends a comment
    (
        b"@ @c a//b@ c",
        "[program] head:1 at:1 w:a tail:1 CommentDidNotEnd 1 ",
    ),
    (
        b"@ @c a//@\nb",
        "[program] head:1 at:1 w:a tail:1 CommentDidNotEnd 1 ",
    ),
    (
        b"@ @c a/*@*/b",
        "[program] head:1 at:1 w:a tail:1 CommentDidNotEnd 1 ",
    ),
    (
        b"@ @c a/*b\n@* c",
        "[program] head:1 at:1 w:a / tail:1 CommentDidNotEnd 1 ",
    ),
    (b"@ @c a/", "[program] head:1 at:1 w:a p:/ tail:1 "),
];

const IDENTIFIERS_AND_NUMBERS: &[(&[u8], &str)] = &[
    (
        b"@ @c a_$1\xff\x80 1a.2e+3-4 .5 .x 0x1P-2f 1e+-3 1..2",
        "[program] head:1 at:1 w:a_$1{ff}{80} n:1a.2e+3 p:- n:4 n:.5 p:. w:x n:0x1P-2f n:1e+ p:- n:3 n:1..2 tail:1 ",
    ),
    (
        b"@ @c a\tb \x0b\x0c\rc",
        "[program] head:1 at:1 w:a w:b w:c tail:1 ",
    ),
];

const PUNCTUATORS: &[(&[u8], &str)] = &[
    (
        b"@ @c ... <<= >>= ->* -> ++ -- << >> <= >= == != && || *= /= %= += -= &= ^= |= ## :: .*",
        "[program] head:1 at:1 p:... p:<<= p:>>= p:->* p:-> p:++ p:-- p:<< p:>> p:<= p:>= p:== p:!= p:&& p:|| p:*= p:/= p:%= p:+= p:-= p:&= p:^= p:|= p:## p::: p:.* tail:1 ",
    ),
    (
        b"@ @c <<< >>- ->- +++ --- <=> .. .*= =! &| : ~ \x01",
        "[program] head:1 at:1 p:<< p:< p:>> p:- p:-> p:- p:++ p:+ p:-- p:- p:<= p:> p:. p:. p:.* p:= p:= p:! p:& p:| p:: p:~ p:{01} tail:1 ",
    ),
];

#[test]
fn comments_words_and_punctuators(rt: HostRuntime) -> Result<(), Fail> {
    const TABLES: &[Table] = &[COMMENTS, IDENTIFIERS_AND_NUMBERS, PUNCTUATORS];
    check_all(&rt, TABLES)
}
