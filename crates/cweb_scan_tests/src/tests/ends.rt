// Sources that end in each item, and an `@` at the end.
use super::*;

const WEBS_THAT_END_IN_AN_ITEM: &[(&[u8], &str)] = &[
    (
        b"@ @c @<A",
        "[program] head:1 at:1 <A> at:1 tail:1 NameDidNotEnd 1 NotPresent <A> ",
    ),
    (
        b"@ @c x /* y",
        "[program] head:1 at:1 w:x tail:1 CommentDidNotEnd 1 ",
    ),
    (b"@ @c x // y", "[program] head:1 at:1 w:x tail:1 "),
    (
        b"@ @c @^ab",
        "[program] head:1 at:1 tail:1 ControlTextDidNotEnd 1 ",
    ),
    (b"@ @c @'", "[program] head:1 at:1 tail:1 FaultyConstant 1 "),
    (
        b"@ @c @=",
        "[program] head:1 at:1 tail:1 ControlTextDidNotEnd 1 ",
    ),
    (
        b"@ @c #include <a",
        "[program] head:1 at:1 p:# w:include _ p:< w:a tail:1 ",
    ),
    (
        b"@ @c #a \\",
        "[program] head:1 at:1 p:# w:a _ p:\\ tail:1 ",
    ),
    (b"@ @d m /*", "[macro] w:m CommentDidNotEnd 1 "),
    (b"@ @d m \"", "[macro] w:m _ l:\" StringDidNotEnd 1 "),
    (b"@ @<A", "NameDidNotEnd 1 "),
    (b"@q", "ControlTextDidNotEnd 1 "),
];

// An `@` at the end of a line begins a section, except in literals.
const LAST_AT_OF_A_LINE: &[(&[u8], &str)] = &[
    (b"x@\n@c y", "[program] head:1 at:2 w:y tail:1 "),
    (
        b"@ @c x@\n@c y",
        "[program] head:1 at:1 w:x tail:1 [program] head:2 at:2 w:y tail:2 ",
    ),
    (
        b"@ @c @<A@\n@c y",
        "[program] head:1 at:1 <A> at:1 tail:1 [program] head:2 at:2 w:y tail:2 NameDidNotEnd 1 NotPresent <A> ",
    ),
    (
        b"@ @c /*@\n@c y",
        "[program] head:1 at:1 tail:1 [program] head:2 at:2 w:y tail:2 CommentDidNotEnd 1 ",
    ),
    (
        b"@ @c R\"(@\n@c y",
        "[program] head:1 at:1 l:R\"( tail:1 [program] head:2 at:2 w:y tail:2 StringDidNotEnd 1 ",
    ),
    (
        b"@ @c @^a@\n@c y",
        "[program] head:1 at:1 tail:1 [program] head:2 at:2 w:y tail:2 ControlTextDidNotEnd 1 ",
    ),
    (
        b"@ @c @'@\n@c y",
        "[program] head:1 at:1 / w:y tail:1 FaultyConstant 1 IgnoredInCText 2 ",
    ),
    (
        b"@ @c \"@\ny",
        "[program] head:1 at:1 l:\"@ / w:y tail:1 DoubleAtInString 1 StringDidNotEnd 1 ",
    ),
    (b"@ @c x@", "[program] head:1 at:1 w:x tail:1 "),
    (b"@ @d m x@", "[macro] w:m _ w:x "),
    (b"@ @d@", "DefinitionDropped 1 "),
];

#[test]
fn ends_of_webs_and_lines(rt: HostRuntime) -> Result<(), Fail> {
    const TABLES: &[Table] = &[WEBS_THAT_END_IN_AN_ITEM, LAST_AT_OF_A_LINE];
    check_all(&rt, TABLES)
}
