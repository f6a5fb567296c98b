// Many faults: their lines are written in large chunks.
use super::expected::Expected;
use super::merging::{Failing, Merge, Program, ran};
use super::wanted::holds;
use std::alloc::{AllocError, Global};
use std::process::Abort;

/// A run over a web of this many include lines without a name.
fn merged_lines(alloc: Global, name: &str, lines: usize) -> Result<Merge, AllocError> {
    let web = "@i\n".repeat(alloc, lines)?;
    let texts = [(name, web.as_bytes())];
    ran(
        alloc,
        Program::Wmerge,
        &(&[name], None, &texts, "", "", 1),
        Failing::Nothing,
    )
}

/// Compares the line of a fault in a line of a web.
fn feed_fault(log: &mut Expected, name: &str, line: usize) {
    log.feed(name.as_bytes());
    log.feed(b":");
    log.feed(itoa::Buffer::new().format(line).as_bytes());
    log.feed(b": ! Include file name not given\n");
}

/// Whether a log consists of the line of a fault for each line of a web.
fn has_faults(log: &[u8], name: &str, lines: usize) -> bool {
    let mut log = Expected::new(log);
    for line in 0..lines {
        feed_fault(&mut log, name, line + 1);
    }
    log.is_met()
}

fn check_faults(rt: &(impl Abort + AllocGlobal), name: &str, lines: usize) {
    let left = merged_lines(rt.alloc(), name, lines).expect(rt, "memory");
    check_left(rt, &left, name, lines);
    drop(left);
}

fn check_left(rt: &impl Abort, left: &Merge, name: &str, lines: usize) {
    holds(rt, left.status == 1);
    holds(rt, has_faults(left.log.bytes(), name, lines));
    // about 40 bytes per line, and 4,096 per write
    holds(rt, left.log.writes < 12);
}

#[test]
fn a_thousand_faults_are_few_writes(rt: HostRuntime) {
    check_faults(&rt, "a.w", 1000);
}

#[test]
fn a_name_longer_than_the_buffer(rt: HostRuntime) {
    // a word with a dot is the file's name
    let name = "n.".repeat(rt.alloc(), 2500).expect(&rt, "memory");
    check_faults(&rt, name.as_str(), 2);
}
