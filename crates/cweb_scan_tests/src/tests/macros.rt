// Definitions and macros.
use super::*;

const DEFINITIONS_AND_MACROS: &[(&[u8], &str)] = &[
    (b"@ @d\n /* a */ // b\n m 1", "[macro] w:m _ n:1 "),
    (
        b"@ @d $a_1\xe4(b)c @D d",
        "[macro] w:$a_1{e4} p:( w:b p:) w:c [macro] w:d ",
    ),
    // any other lexeme than an identifier drops the definition, and TeX continues
    (b"@ @d 1 @d n", "[macro] w:n DefinitionDropped 1 "),
    (
        b"@ @d\n@c x",
        "[program] head:1 at:2 w:x tail:1 DefinitionDropped 1 ",
    ),
    (
        b"@ @d\n@ @c x",
        "[program] head:2 at:2 w:x tail:2 DefinitionDropped 1 ",
    ),
    (b"@ @d L\"x\"", "DefinitionDropped 1 "),
    (b"@ @d R\"(x)\" @d m", "[macro] w:m DefinitionDropped 1 "),
    (b"@ @d @@ m", "DefinitionDropped 1 "),
    (b"@ @d", "DefinitionDropped 1 "),
    (b"@ @d\n/* x\n@ ", "CommentDidNotEnd 2 DefinitionDropped 1 "),
];

const CODES_OF_MACROS: &[(&[u8], &str)] = &[
    (
        b"@ @d m 1 @f x @c y",
        "[macro] w:m _ n:1 [program] head:1 at:1 w:y tail:1 ",
    ),
    (b"@ @d m 1 @S x @@", "[macro] w:m _ n:1 "),
    (
        b"@ @d m 1 @p x",
        "[macro] w:m _ n:1 [program] head:1 at:1 w:x tail:1 ",
    ),
    (b"@ @d m @<A@> 1", "[macro] w:m "),
    (
        b"@ @d m @<A@>= 1",
        "[macro] w:m [<A>] head:1 at:1 n:1 tail:1 ",
    ),
    (b"@ @d m a@&b", "[macro] w:m _ w:a & w:b "),
    (b"@ @d m @& x", "[macro] w:m _ & w:x "),
    (b"@ @d m @=x@>@'0'@^y@>@@ @z", "[macro] w:m _ v:x n:48 p:@ "),
    (
        b"@ @d m @l 80 @h x",
        "[macro] w:m _ n:80 w:x LetterOutsideLimbo 1 DefsInMacro 1 ",
    ),
    (
        b"@ @d m #include <a>",
        "[macro] w:m _ p:# w:include p:< w:a p:> ",
    ),
];

#[test]
fn definitions_and_macros(rt: HostRuntime) -> Result<(), Fail> {
    const TABLES: &[Table] = &[DEFINITIONS_AND_MACROS, CODES_OF_MACROS];
    check_all(&rt, TABLES)
}
