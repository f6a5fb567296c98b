// Bins in memory.
use crate::tests::wanted::{holds, same_bytes};
use cweb_lines::Sink;
use cweb_out::{Bins, MemoryBins};

#[test]
fn drafts_and_files(rt: HostRuntime) {
    let mut bins = MemoryBins::with_room(rt.alloc(), 2, 8).expect(&rt, "memory");
    bins.start_file("a").expect(&rt, "begun");
    holds(&rt, bins.write(b"ab").expect(&rt, "written") == 2);
    bins.commit_file().expect(&rt, "committed");
    bins.start_file("b").expect(&rt, "begun");
    bins.abandon_file();
    holds(&rt, bins.commit_file().is_err());
    holds(&rt, bins.failures() == 1 && bins.files().len() == 1);
    same_bytes(&rt, bins.files()[0].bytes.as_slice(), b"ab");
}
