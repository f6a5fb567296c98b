// Webs and their outputs. The main file is s.c, unless an example says otherwise.
use super::cases::{Case, check};
use super::reports::report_outputs;
use super::wanted::same_bytes;
use cweb_lines::FileNames;
use cweb_store::Store;
use std::alloc::Global;
use std::process::Abort;
use trial::TrialSink;

/// The name of a main file, and the expected report on a web with it.
#[derive(Drop)]
pub struct Outputs<'a> {
    pub main: &'a str,
    pub text: &'a [u8],
}

impl Case for Outputs<'_> {
    fn look<A: Abort>(&self, rt: &A, alloc: Global, store: &Store, names: &FileNames) {
        let mut out = TrialSink::new(alloc);
        report_outputs(rt, alloc, store, names, self.main, &mut out);
        same_bytes(rt, out.bytes(), self.text);
    }
}

fn outputs_are(rt: &impl Abort, alloc: Global, examples: &[(&str, &str)]) {
    for (web, text) in examples {
        web_outputs_are(rt, alloc, web.as_bytes(), text.as_bytes());
    }
}

/// Checks the report on a web whose main file is s.c.
pub fn web_outputs_are(rt: &impl Abort, alloc: Global, web: &[u8], text: &[u8]) {
    check(rt, alloc, web, &Outputs { main: "s.c", text });
}

#[test]
fn blanks_between_tokens(rt: HostRuntime) {
    const EXAMPLES: &[(&str, &str)] = &[
        (": wa wb n1 l'c' l\"d\" we", "s.c: a b 1 'c'\"d\" e\n"),
        (": n1 p. n2 p.. n3 p+= n4 p* n5", "s.c: 1 . 2 .. 3 +=4*5\n"),
        (": p( p- p- p) p<< p= wa p, p-", "s.c: (- -)<< =a,-\n"),
        (
            ": p/ [1 wa [2 p: ]2 p; ]1",
            "s.c: / /*1:*/a/*2:*/: /*:2*/;/*:1*/\n",
        ),
        (": vx wa vy [3 n1 vz ]3", "s.c: xay /*3:*/1z /*:3*/\n"),
        // a line of program text with a use right after a punctuator
        (
            ": [1 m1 $ wx p= p- n1 p; wa p* p- wb p; wy p= n0xe p+ n1 p; wq p= wa p/ <X m2 p; $ ]1 =X [2 m3 wb ]2",
            "s.c: /*1:*/\n#line 1 \"s.w\"\n\nx= -1;a* -b;y=0xe +1;q=a/ /*2:*/\n#line 3 \"s.w\"\nb/*:2*/\n#line 2 \"s.w\"\n;\n/*:1*/\n",
        ),
    ];
    outputs_are(&rt, rt.alloc(), EXAMPLES);
}

#[test]
fn layout_after_a_join(rt: HostRuntime) {
    const EXAMPLES: &[(&str, &str)] = &[
        (": p/ & [2 m1 wb", "s.c: / /*2:*/b\n"),
        (": wa & _ $ m2 [2 ]2 $ wb $ wc", "s.c: a /*2:*//*:2*/b\nc\n"),
        (": wa & & _ vb _ wc &", "s.c: ab c\n"),
    ];
    outputs_are(&rt, rt.alloc(), EXAMPLES);
}

#[test]
fn macro_lines(rt: HostRuntime) {
    const EXAMPLES: &[(&str, &str)] = &[
        (
            "# wf p( wx p) wx p+ n1 # wg _ p( wx p) # wN # wtwo _ n1 p+ $ n2 : [1 m7 $ wf p( n3 p) ]1",
            "s.c: #define f(x)x+1\n#define g (x)\n#define N\n#define two 1 + \\\n2\n/*1:*/\n#line 7 \"s.w\"\n\nf(3)/*:1*/\n",
        ),
        // a part places the macro lines
        (
            "# wN _ n1 : [1 m7 $ h m8 wf ]1",
            "s.c: /*1:*/\n#line 7 \"s.w\"\n\n#define N 1\n#line 8 \"s.w\"\nf/*:1*/\n",
        ),
        (": wa h wb # wN", "s.c: a\n#define N\nb\n"),
        ("# wN # wM : wa", "s.c: #define N\n#define M\na\n"),
        (
            "# wM _ n1 (a.h [1 m2 $ wint wm p= l\"x ]1",
            "s.c: #define M 1\na.h: /*1:*/\n#line 2 \"s.w\"\n\nint m=\"x/*:1*/\n",
        ),
    ];
    outputs_are(&rt, rt.alloc(), EXAMPLES);
}

// A byte from 128 on is replaced in Words only.
#[test]
fn replaced_bytes(rt: HostRuntime) {
    const EXAMPLES: &[(&str, &str)] = &[
        (": wfür n\u{fc}", "s.c: fXC3XBCr \u{fc}\n"),
        ("%Cu %<e : wfür vü", "s.c: fuerü\n"),
        ("%Cq %< %Cu # wü wö : wü", "s.c: #define u uXB6\nu\n"),
    ];
    outputs_are(&rt, rt.alloc(), EXAMPLES);
}

#[test]
fn line_marks(rt: HostRuntime) {
    const EXAMPLES: &[(&str, &str)] = &[
        (
            ": M4 wa m10 M4294",
            "s.c: #line 4 \"a\\\\b\\\".ch\"\na\n#line 10 \"s.w\"\n#line 4294 \"a\\\\b\\\".ch\"\n",
        ),
        (": wa $ m1 wb", "s.c: a\n#line 1 \"s.w\"\nb\n"),
    ];
    outputs_are(&rt, rt.alloc(), EXAMPLES);
}

#[test]
fn names_are_replaced_by_their_parts(rt: HostRuntime) {
    const EXAMPLES: &[(&str, &str)] = &[
        (
            ": [1 m1 <A m1 $ ]1 =A [2 m2 wa p; $ ]2 =A [3 m3 wb p; ]3",
            "s.c: /*1:*/\n#line 1 \"s.w\"\n/*2:*/\n#line 2 \"s.w\"\na;\n/*:2*//*3:*/\n#line 3 \"s.w\"\nb;/*:3*/\n#line 1 \"s.w\"\n\n/*:1*/\n",
        ),
        (": <A wx <A =A wa <B wa =B wb", "s.c: a b a x a b a\n"),
        // names without a part and unresolved uses expand to nothing
        (
            ": [1 m1 <Q m1 ]1",
            "s.c: /*1:*/\n#line 1 \"s.w\"\n#line 1 \"s.w\"\n/*:1*/\n",
        ),
        (": wa ?zz wb <Q wc", "s.c: a b c\n"),
        (": wa <A wb =A <Q wx <Q", "s.c: a x b\n"),
    ];
    outputs_are(&rt, rt.alloc(), EXAMPLES);
}

#[test]
fn outputs_and_their_order(rt: HostRuntime) {
    const EXAMPLES: &[(&str, &str)] = &[
        ("", "s.c: no text"),
        ("# wM", "s.c: #define M\nno text"),
        (":", "s.c: "),
        ("(a.h wx", "s.c: a.h: x\n"),
        (
            "=b.h wb @a.h (b.h wc : wx (a.h wa",
            "s.c: x\na.h: a\nb.h: b c\n",
        ),
        ("@a.h @d/b.h : wx (d/b.h wy", "s.c: x\nd/b.h: y\n"),
    ];
    outputs_are(&rt, rt.alloc(), EXAMPLES);
}

// A cycle is a fault if an output reaches it. A file's walk begins at its own name.
#[test]
fn cycles(rt: HostRuntime) {
    const EXAMPLES: &[(&str, &str)] = &[
        (": <A =A <B =B <A", "cycle <A> <B> <A>"),
        (": wx =A <B =B <A", "s.c: x\n"),
        (": <A <A =A <B <B =B wx", "s.c: x x x x\n"),
        (": <A =A <A", "cycle <A> <A>"),
        (": <C =C wx <D <A =D wy =A <B =B <D <A", "cycle <A> <B> <A>"),
        ("(f <A =A <B =B <A : wx", "cycle <A> <B> <A>"),
        ("(f <A =A <f : wx", "cycle <f> <A> <f>"),
        ("(g <g (f <A =A <f : <f", "cycle <f> <A> <f>"),
    ];
    outputs_are(&rt, rt.alloc(), EXAMPLES);
}

// Bad names come first, in the order of the outputs, then the main file's name, then cycles.
#[test]
fn the_first_fault_is_reported(rt: HostRuntime) {
    const EXAMPLES: &[(&str, &str)] = &[
        (": <A =A <A (a/ wx", "bad name <a/>"),
        ("@c/ (b/ wx (a/ wx", "bad name <b/>"),
        ("(s.c wx (a/ wx", "bad name <a/>"),
        ("(s.c <s.c", "same name <s.c>"),
        ("@s.c : wx", "same name <s.c>"),
        ("(d/s.c wx : wy", "s.c: y\nd/s.c: x\n"),
    ];
    outputs_are(&rt, rt.alloc(), EXAMPLES);
}

// The main file may have none of these names.
fn refuses_main(rt: &impl Abort, alloc: Global, names: &[&str]) {
    for name in names {
        let outputs = Outputs {
            main: *name,
            text: b"bad main name",
        };
        check(rt, alloc, b": wx", &outputs);
    }
}

#[test]
fn no_file_has_these_names(rt: HostRuntime) {
    const REFUSED: &[&str] = &[
        "", ".", "..", "a/", "a/.", "/..", "a\n", "\u{1f}", "\u{7f}/b",
    ];
    const EXAMPLES: &[(&str, &str)] = &[
        ("( wx", "bad name <>"),
        ("(. wx", "bad name <.>"),
        ("(.. wx", "bad name <..>"),
        ("(a/ wx", "bad name <a/>"),
        ("(a/. wx", "bad name <a/.>"),
        ("(/.. wx", "bad name </..>"),
        ("(a\n wx", "bad name <a\n>"),
        ("(\u{1f} wx", "bad name <\u{1f}>"),
        ("(\u{7f}/b wx", "bad name <\u{7f}/b>"),
        // These names are accepted.
        ("(... wx", "s.c: ...: x\n"),
        ("(.a wx", "s.c: .a: x\n"),
        ("(a. wx", "s.c: a.: x\n"),
        ("(a/..b wx", "s.c: a/..b: x\n"),
        ("(\u{80} wx", "s.c: \u{80}: x\n"),
    ];
    refuses_main(&rt, rt.alloc(), REFUSED);
    outputs_are(&rt, rt.alloc(), EXAMPLES);
    // A name that isn't UTF-8.
    web_outputs_are(&rt, rt.alloc(), b"(a\xff wx", b"bad name <a\xff>");
}
