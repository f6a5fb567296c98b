// A merger, over an own shelf and sink. A shelf and a sink in memory.
use super::types::{first_name, place};
use crate::tests::wanted::{holds, same_bytes, same_string};
use crate::{ByteSink, OneShelf};
use cweb_lines::{
    Ahead, LineSpan, MemoryShelf, MemorySink, Merger, Shelf, Sink, write_merged,
    write_merged_in_chunks,
};

#[test]
fn lines_one_by_one(rt: HostRuntime) {
    let mut shelf = OneShelf::new(rt.alloc(), "a.w", b"x \r\n\ny\t").expect(&rt, "memory");
    let mut merger = Merger::start(
        rt.alloc(),
        &mut shelf,
        "a.w",
        Some("a.web"),
        None,
        Some("lib"),
    )
    .expect(&rt, "opened");
    let mut line = Vec::new(rt.alloc());
    let first = merger
        .next_line(&mut shelf, &mut line)
        .expect(&rt, "a line");
    holds(&rt, first == Some(place(0, 1)));
    same_bytes(&rt, line.as_slice(), b"x");
    holds(&rt, merger.faults().is_empty());
    same_string(&rt, first_name(merger.names()), "a.w");
    holds(&rt, shelf.failures() == 0);
}

#[test]
fn all_lines_written(rt: HostRuntime) {
    let mut shelf = OneShelf::new(rt.alloc(), "a.w", b"x \r\n\ny\t").expect(&rt, "memory");
    let mut merger = Merger::start(rt.alloc(), &mut shelf, "a.w", None, None, None).expect(
        &rt, "opened",
    );
    let mut out = ByteSink::new(rt.alloc());
    write_merged(&mut merger, &mut shelf, &mut out).expect(&rt, "written");
    same_bytes(&rt, out.bytes.as_slice(), b"x\n\ny\n");
    holds(&rt, out.failures() == 0);
}

#[test]
fn all_lines_written_in_chunks(rt: HostRuntime) {
    let mut shelf = OneShelf::new(rt.alloc(), "a.w", b"x \r\n\ny\t").expect(&rt, "memory");
    let mut merger = Merger::start(rt.alloc(), &mut shelf, "a.w", None, None, None).expect(
        &rt, "opened",
    );
    let mut out = ByteSink::new(rt.alloc());
    write_merged_in_chunks(&mut merger, &mut shelf, &mut out, 64).expect(&rt, "written");
    same_bytes(&rt, out.bytes.as_slice(), b"x\n\ny\n");
}

#[test]
fn lines_looked_at_before_they_are_taken(rt: HostRuntime) {
    let mut shelf = MemoryShelf::new(rt.alloc());
    shelf.put("a.w", b"one\ntwo\nthree\n").expect(&rt, "memory");
    let mut merger = Merger::start(rt.alloc(), &mut shelf, "a.w", None, None, None).expect(
        &rt, "opened",
    );
    let mut line = Vec::new(rt.alloc());
    let first = merger
        .next_line(&mut shelf, &mut line)
        .expect(&rt, "a line");
    holds(&rt, first == Some(place(0, 1)));
    let second: Ahead = merger.first_ahead().expect(&rt, "a line in the buffer");
    let third = merger
        .next_ahead(second)
        .expect(&rt, "a line in the buffer");
    let span: LineSpan = third.line;
    holds(&rt, span.place == place(0, 3));
    merger.take_ahead(third);
    let end = merger
        .next_line(&mut shelf, &mut line)
        .expect(&rt, "the end");
    holds(&rt, end.is_none() && merger.stopped().is_none());
}

#[test]
fn devices_in_memory(rt: HostRuntime) {
    let mut shelf = MemoryShelf::new(rt.alloc());
    shelf.put("a", b"old").expect(&rt, "memory");
    shelf.put("a", b"text").expect(&rt, "memory");
    let mut reader = shelf.fetch("a").expect(&rt, "memory").expect(&rt, "there");
    let mut piece = [0; 8];
    let n = shelf.read(&mut reader, &mut piece).expect(&rt, "read");
    same_bytes(&rt, &piece[..n], b"text");
    let mut sink = MemorySink::with_room(rt.alloc(), 8).expect(&rt, "memory");
    holds(&rt, sink.write(b"ab").expect(&rt, "written") == 2);
    same_bytes(&rt, sink.bytes(), b"ab");
    holds(&rt, sink.failures() == 0 && shelf.failures() == 0);
}
