// The shelf and the sink in memory.
use cweb_files::{MemoryShelf, MemorySink, Shelf, Sink};
use std::alloc::{AllocError, Global};
use std::test::Fail;

// Reads a file in chunks of two bytes.
fn read_all<S: Shelf>(
    alloc: Global,
    shelf: &mut S,
    name: &str,
) -> Result<Option<Vec<u8>>, AllocError> {
    let Some(mut reader) = shelf.fetch(name)? else {
        return Ok(None);
    };
    let mut text = Vec::new(alloc);
    for _ in 0..1000 {
        let mut piece = [0u8; 2];
        if shelf.failures() >= 1000 {
            return Ok(None);
        }
        let Ok(n) = shelf.read(&mut reader, &mut piece) else {
            return Ok(None);
        };
        if n == 0 {
            break;
        }
        text.extend_from_slice(&piece[..n])?;
    }
    Ok(Some(text))
}

#[test]
fn later_contents_win(rt: HostRuntime) -> Result<(), Fail> {
    let alloc = rt.alloc();
    let mut shelf = MemoryShelf::new(alloc);
    shelf.put("a.w", b"old")?;
    shelf.put("b.w", b"b")?;
    shelf.put("a.w", b"newer")?;
    let text = read_all(alloc, &mut shelf, "a.w")?.ok_or("none")?;
    assert_eq!(rt; text.as_slice(), b"newer".as_slice());
    assert!(rt; read_all(alloc, &mut shelf, "c.w")?.is_none());
    Ok(())
}

#[test]
fn a_sink_takes_what_its_room_holds(rt: HostRuntime) -> Result<(), Fail> {
    let alloc = rt.alloc();
    let mut sink = MemorySink::with_room(alloc, 3)?;
    if sink.failures() < 1000 {
        assert_eq!(rt; sink.write(b"abc"), Ok(3));
    }
    assert_eq!(rt; sink.bytes(), b"abc".as_slice());
    Ok(())
}
