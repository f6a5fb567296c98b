// Directives in C text.
use super::*;

const WHERE_DIRECTIVES_BEGIN_AND_END: &[(&[u8], &str)] = &[
    // blanks and comments emit one Blank
    (
        b"@ @c #define  x /* c */ y",
        "[program] head:1 at:1 p:# w:define _ w:x _ w:y tail:1 ",
    ),
    (
        b"@ @c\n# define x\ny z",
        "[program] head:1 at:1 / p:# _ w:define _ w:x / w:y w:z tail:1 ",
    ),
    (
        b"@ @c\n /* c */ #x y // c\nz",
        "[program] head:1 at:1 / p:# w:x _ w:y _ / w:z tail:1 ",
    ),
    // no directives
    (
        b"@ @c x # y z\n##x y",
        "[program] head:1 at:1 w:x p:# w:y w:z / p:## w:x w:y tail:1 ",
    ),
    // lines that continue
    (
        b"@ @c\n#a \\\nb c\nd e",
        "[program] head:1 at:1 / p:# w:a _ p:\\ / w:b _ w:c at:4 w:d w:e tail:1 ",
    ),
    (
        b"@ @c\n#a \\/**/\nb c",
        "[program] head:1 at:1 / p:# w:a _ p:\\ _ / w:b w:c tail:1 ",
    ),
    (
        b"@ @c\n#a /* x\ny */ b\nc",
        "[program] head:1 at:1 / p:# w:a _ w:b at:4 w:c tail:1 ",
    ),
    (
        b"@ @c\n#a \"b\\\nc\" d\ne f",
        "[program] head:1 at:1 / p:# w:a _ l:\"b\\{0a}c\" _ w:d at:4 w:e w:f tail:1 ",
    ),
    // the Mark after a use ends a directive
    (
        b"@ @c\n#a @<A@> b c",
        "[program] head:1 at:1 / p:# w:a _ <A> at:2 w:b w:c tail:1 NotPresent <A> ",
    ),
    // a newline that a join dropped
    (
        b"@ @c\n#a \\\n@& b c\nd",
        "[program] head:1 at:1 / p:# w:a _ p:\\ & _ w:b _ w:c at:4 w:d tail:1 ",
    ),
];

const INCLUDED_NAMES: &[(&[u8], &str)] = &[
    (
        b"@ @c\n#include <a/b.h> // x\n# include<c>\n#include \"d\"",
        "[program] head:1 at:1 / p:# w:include _ l:<a/b.h> _ / p:# _ w:include l:<c> / p:# w:include _ l:\"d\" tail:1 ",
    ),
    // other punctuators
    (
        b"@ @c\n#include x<a>\n#define <b>\n#include <c\nd>\n#include <e> <f>",
        "[program] head:1 at:1 / p:# w:include _ w:x p:< w:a p:> / p:# w:define _ p:< w:b p:> / p:# w:include _ p:< w:c / w:d p:> / p:# w:include _ l:<e> _ p:< w:f p:> tail:1 ",
    ),
    (
        b"@ @c include <a>\n#a include <b>",
        "[program] head:1 at:1 w:include p:< w:a p:> / p:# w:a _ w:include _ p:< w:b p:> tail:1 ",
    ),
    (
        b"@ @c\n#include <a@@b>\n#include <a@b>\n#include <a@>",
        "[program] head:1 at:1 / p:# w:include _ l:<a@b> / p:# w:include _ l:<a@b> / p:# w:include _ l:<a@> tail:1 DoubleAtInString 3 DoubleAtInString 4 ",
    ),
];

#[test]
fn directives(rt: HostRuntime) -> Result<(), Fail> {
    const TABLES: &[Table] = &[WHERE_DIRECTIVES_BEGIN_AND_END, INCLUDED_NAMES];
    check_all(&rt, TABLES)
}
