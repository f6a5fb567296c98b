// Lexemes of C text outside directives, by their first bytes.
use super::*;

const LEXEMES_BY_FIRST_BYTE: &[(&[u8], &str)] = &[
    // words, and literals with a prefix
    (
        b"@ @c L\"x\" L x u8'a' u8 uR\"(a\"b)\" uR LR U8\"x\" R\"x",
        "[program] head:1 at:1 l:L\"x\" w:L w:x l:u8'a' w:u8 l:uR\"(a\"b)\" w:uR w:LR w:U8 l:\"x\" w:R l:\"x tail:1 StringDidNotEnd 1 ",
    ),
    // numbers
    (
        b"@ @c 1.e+5 1.e .5 5. 1..x 0",
        "[program] head:1 at:1 n:1.e+5 n:1.e n:.5 n:5. n:1..x n:0 tail:1 ",
    ),
    // operators
    (
        b"@ @c a/b a//b\n...x->*y a.*b a::b a<b>c #\\#",
        "[program] head:1 at:1 w:a p:/ w:b w:a / p:... w:x p:->* w:y w:a p:.* w:b w:a p::: w:b w:a p:< w:b p:> w:c p:# p:\\ p:# tail:1 ",
    ),
    // literals
    (
        b"@ @c \"\\\"\" '\\'' \"a@@b\" \"\\\\\" \"'\" ''",
        "[program] head:1 at:1 l:\"\\\"\" l:'\\'' l:\"a@b\" l:\"\\\\\" l:\"'\" l:'' tail:1 ",
    ),
    (
        b"@ @c '\\\n'x",
        "[program] head:1 at:1 l:'\\{0a}' w:x tail:1 ",
    ),
    // comments
    (
        b"@ @c a/*@@*/b/* x\ny */c// @@ d\ne/**/",
        "[program] head:1 at:1 w:a w:b / w:c / w:e tail:1 ",
    ),
    // a code after a lexeme
    (
        b"@ @c a+@@1@&2",
        "[program] head:1 at:1 w:a p:+ p:@ n:1 & n:2 tail:1 ",
    ),
];

const DIRECTIVE_BODIES: &[(&[u8], &str)] = &[
    // blanks emit one Blank; words, numbers and punctuators are tokens
    (
        b"@ @c\n#define a(x) \t  ((x)+0x1f)*2->y\nb c",
        "[program] head:1 at:1 / p:# w:define _ w:a p:( w:x p:) _ p:( p:( w:x p:) p:+ n:0x1f p:) p:* n:2 p:-> w:y / w:b w:c tail:1 ",
    ),
    // further punctuators open no directive, and no included name follows
    (
        b"@ @c\n#define a <b> # c ## d \\ e\nf g",
        "[program] head:1 at:1 / p:# w:define _ w:a _ p:< w:b p:> _ p:# _ w:c _ p:## _ w:d _ p:\\ _ w:e / w:f w:g tail:1 ",
    ),
    // comments next to blanks, and a line that continues
    (
        b"@ @c\n#a b /* c */ /* d */ e \\\n f g\nh i",
        "[program] head:1 at:1 / p:# w:a _ w:b _ w:e _ p:\\ / _ w:f _ w:g at:4 w:h w:i tail:1 ",
    ),
    // lexemes that the first byte doesn't determine
    (
        b"@ @c\n#a L x \"y\" .5 z@&w\nb c",
        "[program] head:1 at:1 / p:# w:a _ w:L _ w:x _ l:\"y\" _ n:.5 _ w:z & w:w / w:b w:c tail:1 ",
    ),
];

#[test]
fn lexemes_and_directives(rt: HostRuntime) -> Result<(), Fail> {
    const TABLES: &[Table] = &[LEXEMES_BY_FIRST_BYTE, DIRECTIVE_BODIES];
    check_all(&rt, TABLES)
}
