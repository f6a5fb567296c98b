// The runs on hello.w. Their contracts have the bytes if nothing fails, and here nothing does.
use crate::tests::wanted::{holds, same_bytes, same_string};
use crate::{HELLO, depend_hello, merge_hello, tangle_hello};
use cweb_lines::Sink;

#[test]
fn hello_is_tangled_without_a_failure(rt: HostRuntime) {
    let run = tangle_hello(rt.alloc()).expect(&rt, "memory");
    holds(&rt, run.status == 0);
    holds(&rt, run.bins.failures() == 0 && run.log.failures() == 0);
    holds(&rt, run.bins.files().len() == 1);
    same_string(&rt, run.bins.files()[0].name.as_str(), "hello.c");
    same_bytes(
        &rt,
        run.log.bytes(),
        b"This is CTANGLE, profile of CWEB 3\nWriting hello.c\n(No errors were found.)\n",
    );
}

#[test]
fn hello_is_printed_without_a_failure(rt: HostRuntime) {
    let run = merge_hello(rt.alloc()).expect(&rt, "memory");
    holds(&rt, run.status == 0);
    holds(&rt, run.out.failures() == 0 && run.log.failures() == 0);
    same_bytes(&rt, run.out.bytes(), HELLO);
    same_bytes(&rt, run.log.bytes(), b"");
}

#[test]
fn rule_of_hello_is_printed_without_a_failure(rt: HostRuntime) {
    let run = depend_hello(rt.alloc()).expect(&rt, "memory");
    holds(&rt, run.status == 0);
    holds(&rt, run.out.failures() == 0 && run.log.failures() == 0);
    same_bytes(&rt, run.out.bytes(), b"hello.c: hello.w\n");
    same_bytes(&rt, run.log.bytes(), b"");
}
