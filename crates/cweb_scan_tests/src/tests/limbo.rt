// Limbo, and the codes of TeX parts.
use super::*;

const CODES_BEFORE_THE_FIRST_SECTION: &[(&[u8], &str)] = &[
    (b"x @@ @f @s @F @S @q a@@b@> y", ""),
    (b"@<a@>", "DoubleAtInLimbo 1 DoubleAtInLimbo 1 "),
    (b"@d x\n@C", "DoubleAtInLimbo 1 DoubleAtInLimbo 2 "),
    // control texts that don't end
    (
        b"@q a\n@q b@x\n@qc@@d",
        "ControlTextDidNotEnd 1 ControlTextDidNotEnd 2 DoubleAtInLimbo 2 ControlTextDidNotEnd 3 ",
    ),
];

const LETTERS: &[(&[u8], &str)] = &[
    (b"@l 80 a", "80=a "),
    (b"@L FF\tB_9.x", "ff=B_9 "),
    (b"@lfF \t z", "ff=z "),
    (b"@l fc .", "fc= "),
    (b"@l fc a\n@l e4 b\n@l fc c", "e4=b fc=c "),
    (b"@l fc x@c", "fc=x DoubleAtInLimbo 1 "),
    // faulty hexadecimal numbers
    (b"@l 7f x", "ImproperHexNumber 1 "),
    (b"@l fcx", "ImproperHexNumber 1 "),
    (b"@l f x", "ImproperHexNumber 1 "),
    (b"@l g0 x", "ImproperHexNumber 1 "),
    (b"@l fc\x0bx", "ImproperHexNumber 1 "),
    (b"@l\x0bfc x", "ImproperHexNumber 1 "),
    (b"@l fc \n", "ImproperHexNumber 1 "),
    (b"@l 8", "ImproperHexNumber 1 "),
    (b"@l", "ImproperHexNumber 1 "),
    // only `@@` is skipped
    (b"@l @x", "ImproperHexNumber 1 DoubleAtInLimbo 1 "),
    // 31 letters, and 32, which set nothing
    (
        b"@l fc 0123456789abcdefghijklmnopqrstu",
        "fc=0123456789abcdefghijklmnopqrstu ",
    ),
    (
        b"@l fc a\n@l fc 0123456789abcdefghijklmnopqrstuv",
        "fc=a ReplacementTooLong 2 ",
    ),
];

const CODES_OF_TEX_PARTS: &[(&[u8], &str)] = &[
    (
        b"@ @h @& @= a @' @^ @. @: @t @q @l @@ @f @s @z @> @L @H",
        "",
    ),
    (b"@ text @c x", "[program] head:1 at:1 w:x tail:1 "),
    (b"@ @Px", "[program] head:1 at:1 w:x tail:1 "),
    // a name without a part opener is only an occurrence
    (
        b"@ @<Ab@> @<Ac@> @c @<A...@>",
        "[program] head:1 at:1 <?> at:1 tail:1 Ambiguous <A> ",
    ),
];

#[test]
fn limbo_and_tex_parts(rt: HostRuntime) -> Result<(), Fail> {
    const TABLES: &[Table] = &[CODES_BEFORE_THE_FIRST_SECTION, LETTERS, CODES_OF_TEX_PARTS];
    check_all(&rt, TABLES)
}
