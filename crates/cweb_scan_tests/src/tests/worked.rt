// Worked examples of webs.
use super::*;

const PARTS_AND_NAMES: &[(&[u8], &str)] = &[
    (b"", ""),
    (
        b"@ Hello.\n@c\n#include <stdio.h>\nint main(void) { @<Greet@> return 0; }\n@ @<Greet@>=\nputs(\"hi\");\n",
        "[program] head:1 at:2 / p:# w:include _ l:<stdio.h> / w:int w:main p:( w:void p:) p:{ <Greet> at:4 w:return n:0 p:; p:} / tail:1 [<Greet>] head:2 at:5 / w:puts p:( l:\"hi\" p:) p:; tail:2 ",
    ),
    (
        b"@ @c\n@<Glob...@>\n@ @<Global variables@>=\nint g;\n",
        "[program] head:1 at:1 / <Global variables> at:2 / tail:1 [<Global variables>] head:2 at:3 / w:int w:g p:; tail:2 ",
    ),
    (
        b"@ @c\n@<Glob...@>\n@ @<Global variables@>=\nint g;\n@ @<Global types@>=\ntypedef int t;\n",
        "[program] head:1 at:1 / <?> at:2 / tail:1 [<Global variables>] head:2 at:3 / w:int w:g p:; / tail:2 [<Global types>] head:3 at:5 / w:typedef w:int w:t p:; tail:3 Ambiguous <Glob> ",
    ),
    (
        b"@ @c @<A@>\n@ @<A@>= a;\n@ @<A@>+= b;\n",
        "[program] head:1 at:1 <A> at:1 / tail:1 [<A>] head:2 at:2 w:a p:; / tail:2 [<A>] head:3 at:3 w:b p:; tail:3 ",
    ),
    (
        b"@ @c @<Q@>\n",
        "[program] head:1 at:1 <Q> at:1 tail:1 NotPresent <Q> ",
    ),
    (
        b"@ @(h.c@>= x\n",
        "[<h.c>] head:1 at:1 w:x tail:1 file <h.c> ",
    ),
    (b"@ @(@>= x\n", "[<>] head:1 at:1 w:x tail:1 file <> "),
];

const OPERATORS_MACROS_AND_DIRECTIVES: &[(&[u8], &str)] = &[
    (
        b"@ @c\nx= -1; a*-b; y=0xe + 1; q=a/@<X@>;\n@ @<X@>= b\n",
        "[program] head:1 at:1 / w:x p:= p:- n:1 p:; w:a p:* p:- w:b p:; w:y p:= n:0xe p:+ n:1 p:; w:q p:= w:a p:/ <X> at:2 p:; / tail:1 [<X>] head:2 at:3 w:b tail:2 ",
    ),
    (
        b"@ Macros.\n@d f(x) x+1\n@d g (x)\n@d N\n@d two 1+\n  2\n@c\nf(3)\n",
        "[macro] w:f p:( w:x p:) w:x p:+ n:1 [macro] w:g _ p:( w:x p:) [macro] w:N [macro] w:two _ n:1 p:+ / n:2 [program] head:1 at:7 / w:f p:( n:3 p:) tail:1 ",
    ),
    (
        b"@ Macros.\n@d f(x) x+1\n@d N\n@c\n@h f(3)\n",
        "[macro] w:f p:( w:x p:) w:x p:+ n:1 [macro] w:N [program] head:1 at:4 / defs at:5 w:f p:( n:3 p:) tail:1 ",
    ),
    (
        b"@l fc ue\n@ @c\nfoo@&\nbar @'a' @'\\t' @=a  b@> f\xfcr\n",
        "[program] head:1 at:2 / w:foo & / w:bar n:97 n:9 v:a  b w:f{fc}r tail:1 fc=ue ",
    ),
    (
        b"@ @d M 1\n@(a.h@>=\nint m=\"x\n",
        "[macro] w:M _ n:1 [<a.h>] head:1 at:2 / w:int w:m p:= l:\"x tail:1 file <a.h> StringDidNotEnd 3 ",
    ),
    (
        b"@ @c\n#define A /* one\ntwo */ 1\nint b; // end\n/*\n*/ c;\n",
        "[program] head:1 at:1 / p:# w:define _ w:A _ n:1 at:4 w:int w:b p:; / / w:c p:; tail:1 ",
    ),
    (
        b"@ @c\n#define A \\\n1\nint b; // end\n/*\n*/ c;\n",
        "[program] head:1 at:1 / p:# w:define _ w:A _ p:\\ / n:1 at:4 w:int w:b p:; / / w:c p:; tail:1 ",
    ),
    (
        b"@ @c\ns=R\"d(a\"b @@\nc)d\"; t=R\"x\n",
        "[program] head:1 at:1 / w:s p:= l:R\"d(a\"b @{0a}c)d\" p:; w:t p:= w:R l:\"x tail:1 StringDidNotEnd 3 ",
    ),
    (
        b"@ @c R\"(a\n@ @c b\n",
        "[program] head:1 at:1 l:R\"(a{0a} tail:1 [program] head:2 at:2 w:b tail:2 StringDidNotEnd 1 ",
    ),
];

// Each kind of fault, in the order of the items.
const FAULTS_IN_THE_ORDER_OF_THEIR_ITEMS: &[(&[u8], &str)] = &[
    (
        b"me@@x @c\n@ @c int a; @d @l b @'ab' \"x@y\"\n",
        "[program] head:1 at:2 w:int w:a p:; w:b l:\"x@y\" tail:1 DoubleAtInLimbo 1 IgnoredInCText 2 LetterOutsideLimbo 2 FaultyConstant 2 DoubleAtInString 2 ",
    ),
    (
        b"@l 7f x\n@l e4 xxxxxxxxxxxxxxxxxxxxxxxxxxxxxxxx\n@ @d 1\n@d m @h @l\n@c @t ab\n@<A@<B@> =b\n",
        "[macro] w:m [program] head:1 at:5 / <A> at:6 <B> at:6 p:= w:b tail:1 ImproperHexNumber 1 ReplacementTooLong 2 DefinitionDropped 3 DefsInMacro 4 LetterOutsideLimbo 4 ControlTextDidNotEnd 5 NamesDoNotNest 6 MissingAt 6 NotPresent <A> NotPresent <B> ",
    ),
    // comments, names and literals have the place of their start, an `@` has its own
    (
        b"@ @c /*\na\n@ @c @<b\nc\n@ @c \"d\\\ne@f\\\ng\nR\"(\nh@i\n",
        "[program] head:1 at:1 / / tail:1 [program] head:2 at:3 <b c> at:5 tail:2 [program] head:3 at:5 l:\"d\\{0a}e@f\\{0a}g / l:R\"({0a}h@i tail:3 CommentDidNotEnd 1 NameDidNotEnd 3 DoubleAtInString 6 StringDidNotEnd 5 DoubleAtInString 9 StringDidNotEnd 8 NotPresent <b c> ",
    ),
];

#[test]
fn worked_examples(rt: HostRuntime) -> Result<(), Fail> {
    const TABLES: &[Table] = &[
        PARTS_AND_NAMES,
        OPERATORS_MACROS_AND_DIRECTIVES,
        FAULTS_IN_THE_ORDER_OF_THEIR_ITEMS,
    ];
    check_all(&rt, TABLES)
}
