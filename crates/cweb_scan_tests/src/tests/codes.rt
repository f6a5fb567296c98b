// Control codes in C text.
use super::*;

const CODES_OF_C_TEXT: &[(&[u8], &str)] = &[
    (
        b"@ @c @d @F @s @c @P x",
        "[program] head:1 at:1 w:x tail:1 IgnoredInCText 1 IgnoredInCText 1 IgnoredInCText 1 IgnoredInCText 1 IgnoredInCText 1 ",
    ),
    (
        b"@ @c x @H y",
        "[program] head:1 at:1 w:x defs at:1 w:y tail:1 ",
    ),
    // a join drops the layout before it
    (
        b"@ @c a @& b\n\n@&\nc",
        "[program] head:1 at:1 w:a & w:b & / w:c tail:1 ",
    ),
    (b"@ @c @@x", "[program] head:1 at:1 p:@ w:x tail:1 "),
    (
        b"@ @c x @, @| @> @z @\x01 @\xff y",
        "[program] head:1 at:1 w:x w:y tail:1 ",
    ),
    (
        b"@ @c @l fc x",
        "[program] head:1 at:1 w:fc w:x tail:1 LetterOutsideLimbo 1 ",
    ),
];

const CONTROL_TEXTS: &[(&[u8], &str)] = &[
    (
        b"@ @c @^a@>b@.c@>@:d@>@Te@>@qf@>g",
        "[program] head:1 at:1 w:b w:g tail:1 ",
    ),
    (b"@ @c @^a@@b@>c", "[program] head:1 at:1 w:c tail:1 "),
    (
        b"@ @c @ta@xb",
        "[program] head:1 at:1 w:b tail:1 ControlTextDidNotEnd 1 ",
    ),
    (
        b"@ @c @ta\nb@>c",
        "[program] head:1 at:1 / w:b w:c tail:1 ControlTextDidNotEnd 1 ",
    ),
    // `@=` emits its bytes
    (
        b"@ @c @=a@@ b@>@=@>",
        "[program] head:1 at:1 v:a@ b v: tail:1 ",
    ),
    (
        b"@ @c @=a b",
        "[program] head:1 at:1 tail:1 ControlTextDidNotEnd 1 ",
    ),
    (
        b"@ @c @=a@xb",
        "[program] head:1 at:1 w:b tail:1 ControlTextDidNotEnd 1 ",
    ),
];

const CHARACTER_CONSTANTS: &[(&[u8], &str)] = &[
    (
        b"@ @c @'a'@'@@'@' '@'\"'@'\\0'@'\\17'@'\\377'@'\\a'@'\\b'@'\\f'@'\\n'@'\\r'@'\\t'@'\\v'@'\\\\'@'\\''@'\\\"'@'\\?'",
        "[program] head:1 at:1 n:97 n:64 n:32 n:34 n:0 n:15 n:255 n:7 n:8 n:12 n:10 n:13 n:9 n:11 n:92 n:39 n:34 n:63 tail:1 ",
    ),
    // a faulty constant ends at the next quote, or at the end of the line
    (
        b"@ @c @''x",
        "[program] head:1 at:1 w:x tail:1 FaultyConstant 1 ",
    ),
    (
        b"@ @c @'\\400'x",
        "[program] head:1 at:1 w:x tail:1 FaultyConstant 1 ",
    ),
    (
        b"@ @c @'\\1234'x",
        "[program] head:1 at:1 w:x tail:1 FaultyConstant 1 ",
    ),
    (
        b"@ @c @'\\8'x",
        "[program] head:1 at:1 w:x tail:1 FaultyConstant 1 ",
    ),
    (
        b"@ @c @'\\q'x",
        "[program] head:1 at:1 w:x tail:1 FaultyConstant 1 ",
    ),
    (
        b"@ @c @'\xe4'x",
        "[program] head:1 at:1 w:x tail:1 FaultyConstant 1 ",
    ),
    (
        b"@ @c @'ab\nc",
        "[program] head:1 at:1 / w:c tail:1 FaultyConstant 1 ",
    ),
    (
        b"@ @c @'a",
        "[program] head:1 at:1 tail:1 FaultyConstant 1 ",
    ),
    // no section begins in it
    (
        b"@ @c @'@ 'x",
        "[program] head:1 at:1 w:x tail:1 FaultyConstant 1 ",
    ),
];

#[test]
fn codes_and_constants(rt: HostRuntime) -> Result<(), Fail> {
    const TABLES: &[Table] = &[CODES_OF_C_TEXT, CONTROL_TEXTS, CHARACTER_CONSTANTS];
    check_all(&rt, TABLES)
}
