// Webs, and the effect of a run over each.
use super::tangling::{Run, check_run, check_runs};

const USAGE: &str =
    "! Usage: ctangle [options] webfile[.w] [{changefile[.ch]|-} [outfile[.c]]]\n== 1\n";

const HELLO: &[(&str, &[u8])] = &[(
    "hello.w",
    b"@ Hello.\n@c\n#include <stdio.h>\nint main(void) { @<Greet@> return 0; }\n@ @<Greet@>=\nputs(\"hi\");\n",
)];

const ONE_WORD: &[(&str, &[u8])] = &[("a.w", b"@ @c x\n")];

#[test]
fn what_is_shown(rt: HostRuntime) {
    const RUNS: &[Run] = &[
        (
            &["hello"],
            HELLO,
            "This is CTANGLE, profile of CWEB 3\nWriting hello.c\n(No errors were found.)\n== hello.c\n/*1:*/\n#line 2 \"hello.w\"\n\n#include <stdio.h>\nint main(void){/*2:*/\n#line 5 \"hello.w\"\n\nputs(\"hi\");/*:2*/\n#line 4 \"hello.w\"\nreturn 0;}\n/*:1*/\n== 0\n",
        ),
        (
            &["+s", "hello"],
            HELLO,
            "This is CTANGLE, profile of CWEB 3\nWriting hello.c\nSections: 2. Names: 1. Macros: 0.\n(No errors were found.)\n== hello.c\n/*1:*/\n#line 2 \"hello.w\"\n\n#include <stdio.h>\nint main(void){/*2:*/\n#line 5 \"hello.w\"\n\nputs(\"hi\");/*:2*/\n#line 4 \"hello.w\"\nreturn 0;}\n/*:1*/\n== 0\n",
        ),
        (
            &["hello", "-bph"],
            HELLO,
            "== hello.c\n/*1:*/\n#line 2 \"hello.w\"\n\n#include <stdio.h>\nint main(void){/*2:*/\n#line 5 \"hello.w\"\n\nputs(\"hi\");/*:2*/\n#line 4 \"hello.w\"\nreturn 0;}\n/*:1*/\n== 0\n",
        ),
        (
            &["empty"],
            &[("empty.w", b"")],
            "This is CTANGLE, profile of CWEB 3\n! No program text\nWriting empty.c\n(Did you see the warning?)\n== empty.c\n== 0\n",
        ),
        (
            &["-bh", "q"],
            &[("q.w", b"@* @c @<Q@>\n")],
            "*1\n! Not present: <Q>\nWriting q.c\n== q.c\n/*1:*/\n#line 1 \"q.w\"\n#line 1 \"q.w\"\n/*:1*/\n== 1\n",
        ),
        (
            &["-bp", "k"],
            &[("k.w", b"me@@x @c\n@ @c int a; @d @l b @'ab' \"x@y\"\n")],
            "k.w:1: ! Double @ in limbo\nk.w:2: ! @d, @f, @s, @c and @p are ignored in C text\nk.w:2: ! Use @l in limbo only\nk.w:2: ! Faulty ASCII constant\nk.w:2: ! Double @ in strings\n(Faults: 5.)\n== k.c\n/*1:*/\n#line 2 \"k.w\"\nint a;b \"x@y\"/*:1*/\n== 1\n",
        ),
    ];
    check_runs(&rt, RUNS);
}

#[test]
fn no_words(rt: HostRuntime) {
    check_run(&rt, &(&[], &[], USAGE));
}

#[test]
fn words_that_name_files(rt: HostRuntime) {
    const RUNS: &[Run] = &[
        (&["-bph"], ONE_WORD, USAGE),
        (&["a", "-", "-"], ONE_WORD, USAGE),
        (&["-b-", "a"], ONE_WORD, USAGE),
        (
            &["-bph", "gone"],
            ONE_WORD,
            "! Cannot open web file gone.w\n== 1\n",
        ),
        (
            &["-bph", "a", "gone"],
            ONE_WORD,
            "! Cannot open change file gone.ch\n== 1\n",
        ),
        (
            &["-bph", "-z", "x.y/web"],
            &[("x.y/web.web", b"@ @c x\n")],
            "== web.c\n/*1:*/\n#line 1 \"x.y/web.web\"\nx/*:1*/\n== 0\n",
        ),
        (
            &["-bph", "a", "-", "out"],
            ONE_WORD,
            "== out.c\n/*1:*/\n#line 1 \"a.w\"\nx/*:1*/\n== 0\n",
        ),
        (
            &["-bph", "v", "v"],
            &[
                ("v.w", b"@ @c\na;\nb;\nc;\n"),
                ("v.ch", b"@x\nb;\n@y\nB;\n@z\n"),
            ],
            "== v.c\n/*1:*/\n#line 1 \"v.w\"\n\na;\n#line 4 \"v.ch\"\nB;\n#line 4 \"v.w\"\nc;/*:1*/\n== 0\n",
        ),
    ];
    check_runs(&rt, RUNS);
}

#[test]
fn names(rt: HostRuntime) {
    const RUNS: &[Run] = &[
        (
            &["-bph", "n"],
            &[(
                "n.w",
                b"@ @c\n@<Glob...@>\n@ @<Global variables@>=\nint g;\n",
            )],
            "== n.c\n/*1:*/\n#line 1 \"n.w\"\n\n/*2:*/\n#line 3 \"n.w\"\n\nint g;/*:2*/\n#line 2 \"n.w\"\n\n/*:1*/\n== 0\n",
        ),
        (
            &["-bph", "n"],
            &[(
                "n.w",
                b"@ @c\n@<Glob...@>\n@ @<Global variables@>=\nint g;\n@ @<Global types@>=\ntypedef int t;\n",
            )],
            "! Ambiguous prefix: <Glob...>\n== n.c\n/*1:*/\n#line 1 \"n.w\"\n\n#line 2 \"n.w\"\n\n/*:1*/\n== 1\n",
        ),
        (
            &["-bph", "g"],
            &[(
                "g.w",
                b"@ @<Global variables@>=\nint g;\n@ @c @<Glob...@>\n@ @<Global types@>=\nint t;\n",
            )],
            "== g.c\n/*2:*/\n#line 3 \"g.w\"\n/*1:*/\n#line 1 \"g.w\"\n\nint g;\n/*:1*/\n#line 3 \"g.w\"\n\n/*:2*/\n== 0\n",
        ),
        (
            &["-bph", "k"],
            &[("k.w", b"@ @c @<A@>\n@ @<A@>= a;\n@ @<A@>+= b;\n")],
            "== k.c\n/*1:*/\n#line 1 \"k.w\"\n/*2:*/\n#line 2 \"k.w\"\na;\n/*:2*//*3:*/\n#line 3 \"k.w\"\nb;/*:3*/\n#line 1 \"k.w\"\n\n/*:1*/\n== 0\n",
        ),
        (
            &["-bph", "n"],
            &[("n.w", b"@ @c @<ab@>@<abc@>\n@ @<ab@>= x\n@ @<abc@>= y\n")],
            "! Name is a prefix of another: <ab>\n== n.c\n/*1:*/\n#line 1 \"n.w\"\n/*2:*/\n#line 2 \"n.w\"\nx\n/*:2*/\n#line 1 \"n.w\"\n/*3:*/\n#line 3 \"n.w\"\ny/*:3*/\n#line 1 \"n.w\"\n\n/*:1*/\n== 1\n",
        ),
        (
            &["-bph", "q"],
            &[("q.w", b"@ @c @<Q@>\n")],
            "! Not present: <Q>\n== q.c\n/*1:*/\n#line 1 \"q.w\"\n#line 1 \"q.w\"\n/*:1*/\n== 1\n",
        ),
    ];
    check_runs(&rt, RUNS);
}

#[test]
fn outputs_that_are_refused(rt: HostRuntime) {
    const RUNS: &[Run] = &[
        (
            &["-bph", "c"],
            &[("c.w", b"@ @c @<A@>\n@ @<A@>= @<B@>\n@ @<B@>= @<A@>\n")],
            "! Cycle: <A> <B> <A>\n== 1\n",
        ),
        (
            &["-bph", "c"],
            &[("c.w", b"@ @c x;\n@ @<A@>= @<B@>\n@ @<B@>= @<A@>\n")],
            "== c.c\n/*1:*/\n#line 1 \"c.w\"\nx;\n/*:1*/\n== 0\n",
        ),
        (
            &["-bph", "h"],
            &[("h.w", b"@ @(h.c@>= x\n")],
            "! Two outputs with one name: <h.c>\n== 1\n",
        ),
        (
            &["-bph", "h"],
            &[("h.w", b"@ @(@>= x\n")],
            "! Bad output name: <>\n== 1\n",
        ),
        (
            &["h"],
            &[("h.w", b"@ @(..@>= x\n")],
            "This is CTANGLE, profile of CWEB 3\n! Bad output name: <..>\n(Faults: 1.)\n== 1\n",
        ),
    ];
    check_runs(&rt, RUNS);
}

#[test]
fn printed_output(rt: HostRuntime) {
    const RUNS: &[Run] = &[
        (
            &["-bph", "s"],
            &[(
                "s.w",
                b"@ @c\nx= -1; a*-b; y=0xe + 1; q=a/@<X@>;\n@ @<X@>= b\n",
            )],
            "== s.c\n/*1:*/\n#line 1 \"s.w\"\n\nx= -1;a* -b;y=0xe +1;q=a/ /*2:*/\n#line 3 \"s.w\"\nb/*:2*/\n#line 2 \"s.w\"\n;\n/*:1*/\n== 0\n",
        ),
        (
            &["-bph", "d"],
            &[(
                "d.w",
                b"@ Macros.\n@d f(x) x+1\n@d g (x)\n@d N\n@d two 1+\n  2\n@c\nf(3)\n",
            )],
            "== d.c\n#define f(x)x+1\n#define g (x)\n#define N\n#define two 1 + \\\n2\n/*1:*/\n#line 7 \"d.w\"\n\nf(3)/*:1*/\n== 0\n",
        ),
        (
            &["-bph", "d"],
            &[(
                "d.w",
                b"@ Macros.\n@d f(x) x+1\n@d g (x)\n@d N\n@d two 1+\n  2\n@c\n@h f(3)\n",
            )],
            "== d.c\n/*1:*/\n#line 7 \"d.w\"\n\n#define f(x)x+1\n#define g (x)\n#define N\n#define two 1 + \\\n2\n#line 8 \"d.w\"\nf(3)/*:1*/\n== 0\n",
        ),
        (
            &["-bph", "p"],
            &[(
                "p.w",
                b"@ @c\n#define A /* one\ntwo */ 1\nint b; // end\n/*\n*/ c;\n",
            )],
            "== p.c\n/*1:*/\n#line 1 \"p.w\"\n\n#define A 1\n#line 4 \"p.w\"\nint b;\n\nc;/*:1*/\n== 0\n",
        ),
        (
            &["-bph", "p"],
            &[("p.w", b"@ @c\n#define A \\\n1\nint b; // end\n/*\n*/ c;\n")],
            "== p.c\n/*1:*/\n#line 1 \"p.w\"\n\n#define A \\\n1\n#line 4 \"p.w\"\nint b;\n\nc;/*:1*/\n== 0\n",
        ),
        (
            &["-bph", "f"],
            &[("f.w", b"@ @d M 1\n@(a.h@>=\nint m=\"x\n")],
            "f.w:3: ! String did not end\n== f.c\n#define M 1\n== a.h\n/*1:*/\n#line 2 \"f.w\"\n\nint m=\"x/*:1*/\n== 1\n",
        ),
        (
            &["-bph", "r"],
            &[("r.w", b"@ @c\ns=R\"d(a\"b @@\nc)d\"; t=R\"x\n")],
            "r.w:3: ! String did not end\n== r.c\n/*1:*/\n#line 1 \"r.w\"\n\ns=R\"d(a\"b @\nc)d\";t=R \"x/*:1*/\n== 1\n",
        ),
        (
            &["-bph", "r"],
            &[("r.w", b"@ @c R\"(a\n@ @c b\n")],
            "r.w:1: ! String did not end\n== r.c\n/*1:*/\n#line 1 \"r.w\"\nR\"(a\n/*:1*//*2:*/\n#line 2 \"r.w\"\nb/*:2*/\n== 1\n",
        ),
        (
            &["-bph", "j"],
            &[("j.w", b"@ @c\nfoo@&\nbar @'a' @'\\t' @=a  b@> f\xFCr\n")],
            "== j.c\n/*1:*/\n#line 1 \"j.w\"\n\nfoobar 97 9a  bfXFCr/*:1*/\n== 0\n",
        ),
        (
            &["-bph", "j"],
            &[(
                "j.w",
                b"@l fc ue\n@ @c\nfoo@&\nbar @'a' @'\\t' @=a  b@> f\xFCr\n",
            )],
            "== j.c\n/*1:*/\n#line 2 \"j.w\"\n\nfoobar 97 9a  bfuer/*:1*/\n== 0\n",
        ),
    ];
    check_runs(&rt, RUNS);
}

#[test]
fn webs_that_end_too_soon(rt: HostRuntime) {
    const RUNS: &[Run] = &[
        (
            &["-bph", "u"],
            &[("u.w", b"@ @c @<A\n")],
            "u.w:1: ! Section name did not end\n! Not present: <A>\n== u.c\n/*1:*/\n#line 1 \"u.w\"\n#line 1 \"u.w\"\n/*:1*/\n== 1\n",
        ),
        (
            &["-bph", "u"],
            &[("u.w", b"@ @c x /* y\n")],
            "u.w:1: ! Comment did not end\n== u.c\n/*1:*/\n#line 1 \"u.w\"\nx/*:1*/\n== 1\n",
        ),
        (
            &["-bph", "u"],
            &[("u.w", b"@ @c @^ab\n")],
            "u.w:1: ! Control text did not end\n== u.c\n/*1:*/\n#line 1 \"u.w\"\n/*:1*/\n== 1\n",
        ),
        (
            &["-bph", "u"],
            &[("u.w", b"@ @c @'\n")],
            "u.w:1: ! Faulty ASCII constant\n== u.c\n/*1:*/\n#line 1 \"u.w\"\n/*:1*/\n== 1\n",
        ),
        (
            &["-bph", "u"],
            &[("u.w", b"@ @d\n")],
            "u.w:1: ! Definition dropped, no identifier\n! No program text\n== u.c\n== 1\n",
        ),
        (
            &["-bph", "u"],
            &[("u.w", b"@l 8\n")],
            "u.w:1: ! Improper hex number after @l\n! No program text\n== u.c\n== 1\n",
        ),
    ];
    check_runs(&rt, RUNS);
}
