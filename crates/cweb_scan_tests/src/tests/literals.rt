// Literals, raw ones included.
use super::*;

const LITERALS: &[(&[u8], &str)] = &[
    (
        b"@ @c \"a\" 'b' L\"c\" u\"d\" U\"e\" u8\"f\" u8'g' l\"h\"",
        "[program] head:1 at:1 l:\"a\" l:'b' l:L\"c\" l:u\"d\" l:U\"e\" l:u8\"f\" l:u8'g' w:l l:\"h\" tail:1 ",
    ),
    (
        b"@ @c \"a\\\"b'\\\\\"c",
        "[program] head:1 at:1 l:\"a\\\"b'\\\\\" w:c tail:1 ",
    ),
    (
        b"@ @c \"a\\\nb\"c",
        "[program] head:1 at:1 l:\"a\\{0a}b\" w:c tail:1 ",
    ),
    (
        b"@ @c \"a\nb",
        "[program] head:1 at:1 l:\"a / w:b tail:1 StringDidNotEnd 1 ",
    ),
    (
        b"@ @c \"a\\",
        "[program] head:1 at:1 l:\"a\\ tail:1 StringDidNotEnd 1 ",
    ),
    // `@@` is an `@`, and a lone `@` is a fault
    (b"@ @c \"a@@b\"", "[program] head:1 at:1 l:\"a@b\" tail:1 "),
    (
        b"@ @c \"\\@@x\"",
        "[program] head:1 at:1 l:\"\\@x\" tail:1 ",
    ),
    (
        b"@ @c \"\\@x\"",
        "[program] head:1 at:1 l:\"\\@x\" tail:1 DoubleAtInString 1 ",
    ),
    // no section begins in it
    (
        b"@ @c \"a@b@ c\"d",
        "[program] head:1 at:1 l:\"a@b@ c\" w:d tail:1 DoubleAtInString 1 DoubleAtInString 1 ",
    ),
    (
        b"@ @c \"a\\\n@ b",
        "[program] head:1 at:1 l:\"a\\{0a}@ b tail:1 DoubleAtInString 2 StringDidNotEnd 1 ",
    ),
    (
        b"@ @c 'a@",
        "[program] head:1 at:1 l:'a@ tail:1 DoubleAtInString 1 StringDidNotEnd 1 ",
    ),
];

const RAW_LITERALS: &[(&[u8], &str)] = &[
    (
        b"@ @c R\"(a)\" u8R\"x(b)\")x\" LR\"()\" lR\"()\"",
        "[program] head:1 at:1 l:R\"(a)\" l:u8R\"x(b)\")x\" l:LR\"()\" w:lR l:\"()\" tail:1 ",
    ),
    (
        b"@ @c R\"(a\\\")\"b",
        "[program] head:1 at:1 l:R\"(a\\\")\" w:b tail:1 ",
    ),
    // newlines belong to it
    (
        b"@ @c R\"(a \n  b)\"c\nd",
        "[program] head:1 at:1 l:R\"(a{0a}  b)\" w:c / w:d tail:1 ",
    ),
    (
        b"@ @d m R\"(a\nb)\"\n@c",
        "[macro] w:m _ l:R\"(a{0a}b)\" [program] head:1 at:3 tail:1 ",
    ),
    (
        b"@ @c R\"(a@@b\nc@d)\"",
        "[program] head:1 at:1 l:R\"(a@b{0a}c@d)\" tail:1 DoubleAtInString 2 ",
    ),
    // delimiters of 16 and of 17 bytes
    (
        b"@ @c R\"0123456789abcdef(a)0123456789abcdef\"",
        "[program] head:1 at:1 l:R\"0123456789abcdef(a)0123456789abcdef\" tail:1 ",
    ),
    (
        b"@ @c R\"0123456789abcdefg(a)0123456789abcdefg\"",
        "[program] head:1 at:1 w:R l:\"0123456789abcdefg(a)0123456789abcdefg\" tail:1 ",
    ),
    (
        b"@ @c R\"a b(c)a b\" R\"@@(x)@@\" R\"\\(x)\\\"",
        "[program] head:1 at:1 w:R l:\"a b(c)a b\" w:R l:\"@(x)@\" w:R l:\"\\(x)\\\" tail:1 StringDidNotEnd 1 ",
    ),
    // a section start and the end of the source end it
    (
        b"@ @c R\"(a@ b",
        "[program] head:1 at:1 l:R\"(a tail:1 StringDidNotEnd 1 ",
    ),
    (
        b"@ @c R\"x(a\nb)\"",
        "[program] head:1 at:1 l:R\"x(a{0a}b)\" tail:1 StringDidNotEnd 1 ",
    ),
];

#[test]
fn literals_and_raw_literals(rt: HostRuntime) -> Result<(), Fail> {
    const TABLES: &[Table] = &[LITERALS, RAW_LITERALS];
    check_all(&rt, TABLES)
}
