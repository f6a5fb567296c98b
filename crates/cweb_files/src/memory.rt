// A shelf and a sink in memory. Both are observable.
ghost use Rattle.std.specs.Prelude.{◌≡◌, ◌≤◌, ◌+◌, ◌^◌, ◌<◌, ◌-◌, [], ◌++◌, length, take};
ghost use Rattle.std.specs.Prelude.{None, Some, IfOk, IfSome, IsOk, OnErr, OnOk, if◌then◌else◌};
ghost use Rattle.std.specs.Str.{bytes_eq};
ghost use Rattle.cweb_files.specs.surface.Writes.{CountsFailure};

use crate::{Shelf, ShelfFault, Sink, SinkFault};
use std::alloc::{AllocError, Global};

/// The contents `text` of a name.
#[derive(Drop)]
pub struct Entry {
    pub name: String,
    pub text: Vec<u8>,
}

/// Byte strings under names. The last entry of a name counts.
#[derive(Drop)]
pub struct MemoryShelf {
    alloc: Global,
    entries: Vec<Entry>,
}

/// A position in an entry of a shelf.
#[derive(Clone, Copy, Debug)]
pub struct MemoryReader {
    entry: usize,
    at: usize,
}

impl MemoryShelf {
    ghost use Rattle.cweb_files.specs.surface.MemoryDevices.{KeepsOpenReaders, shelf_contents};

    /// A shelf without entries. It allocates nothing.
    pub fn new(alloc: Global) -> Self
        ensures { shelf_contents result ≡ (λ _. None) }
    {
        MemoryShelf {
            alloc,
            entries: Vec::new(alloc),
        }
    }

    /// Replaces the contents of a name. An open reader keeps the earlier ones. A refused call changes nothing.
    pub fn put(&mut self, name: &str, text: &[u8]) -> Result<(), AllocError>
        ensures ok { OnOk result
            (shelf_contents self.new
            ≡ (λ other.
            if bytes_eq name.now other then Some text.now else shelf_contents self.old other)) }
        ensures err { OnErr result (shelf_contents self.new ≡ shelf_contents self.old) }
        ensures readers { KeepsOpenReaders self.old self.new }
    {
        let name = String::from_str(self.alloc, name)?;
        let text = Vec::from_slice(self.alloc, text)?;
        self.entries.push(Entry { name, text })?;
        Ok(())
    }
}

impl Shelf for MemoryShelf {
    ghost use Rattle.cweb_files.specs.Shelves.{Observed, Finds};
    ghost use Rattle.cweb_files.specs.surface.MemoryDevices.{IsReaderOpen, reader_name, reader_rest, shelf_model};

    type R = MemoryReader;

    ghost model = { shelf_model };

    /// The last entry of the name counts. It never fails and allocates nothing.
    fn fetch(&mut self, name: &str) -> Result<Option<MemoryReader>, AllocError>
        ensures ok { IsOk result }
        ensures found { Observed (shelf_model self.old) (λ seen.
            IfOk result (Finds seen name.now)) }
        ensures is_open { IfOk result (λ found. IfSome found (IsReaderOpen self.new)) }
        ensures same { self.new ≡ self.old }
    {
        let mut found = None;
        for (i, entry) in self.entries.iter().enumerate() {
            if entry.name.as_str() == name {
                found = Some(MemoryReader { entry: i, at: 0 });
            }
        }
        Ok(found)
    }

    fn read(&mut self, reader: &mut MemoryReader, piece: &mut [u8]) -> Result<usize, ShelfFault>
        ensures ok { IsOk result }
        ensures within { IfOk result (λ n. n ≤ length piece.new) }
        ensures bytes { IfOk result
            (λ n. reader_rest self.old reader.old ≡ take n piece.new
            ++ reader_rest self.new reader.new) }
        ensures some { 0 < length piece.old → result ≡ Ok 0 → reader_rest self.old reader.old ≡ [] }
        ensures opened { reader_name self.new reader.new ≡ reader_name self.old reader.old }
        ensures is_open { IsReaderOpen self.old reader.old → IsReaderOpen self.new reader.new }
        ensures same { self.new ≡ self.old }
    {
        let Some(entry) = self.entries.get(reader.entry) else {
            return Ok(0);
        };
        let text = entry.text.as_slice();
        if text.len() <= reader.at {
            return Ok(0);
        }
        let n = (text.len() - reader.at).min(piece.len());
        piece[..n].copy_from_slice(&text[reader.at..reader.at + n]);
        reader.at += n;
        Ok(n)
    }

    fn failures(&self) -> u64 {
        0
    }
}

/// A sink in memory with a reserved capacity.
#[derive(Drop)]
pub struct MemorySink {
    bytes: Vec<u8>,
    failed: u64,
}

impl MemorySink {
    ghost use Rattle.cweb_files.specs.surface.MemoryDevices.{sink_bytes, sink_room, sink_failed};

    /// An empty sink with room for `bytes` bytes.
    pub fn with_room(alloc: Global, bytes: usize) -> Result<Self, AllocError>
        ensures empty { IfOk result (λ sink. sink_bytes sink ≡ []) }
        ensures room { IfOk result (λ sink. bytes ≤ sink_room sink) }
        ensures failed { IfOk result (λ sink. sink_failed sink ≡ 0) }
    {
        Ok(MemorySink {
            bytes: Vec::with_capacity(alloc, bytes)?,
            failed: 0,
        })
    }

    /// All bytes written so far.
    pub fn bytes(&self) -> &[u8]
        ensures { result.now ≡ sink_bytes self.now }
    {
        &self.bytes
    }
}

impl Sink for MemorySink {
    ghost use Rattle.cweb_files.specs.surface.MemoryDevices.{sink_bytes, sink_failed, sink_model, sink_room};

    ghost model = { sink_model };

    /// Within the capacity it never fails.
    fn write(&mut self, piece: &[u8]) -> Result<usize, SinkFault>
        requires { sink_failed self.old + 1 < 2 ^ 64 }
        ensures failed { CountsFailure (sink_failed self.old) (sink_failed self.new) result }
        ensures whole { IfOk result (λ n. n ≡ length piece.now) }
        ensures bytes { OnOk result (sink_bytes self.new ≡ sink_bytes self.old ++ piece.now) }
        ensures err { OnErr result (sink_bytes self.new ≡ sink_bytes self.old) }
        ensures room { sink_room self.old ≤ sink_room self.new }
        ensures within_room { length (sink_bytes self.old) + length piece.now ≤ sink_room self.old
            → IsOk result }
    {
        if self.bytes.extend_from_slice(piece).is_err() {
            self.failed += 1;
            return Err(SinkFault);
        }
        Ok(piece.len())
    }

    fn failures(&self) -> u64 {
        self.failed
    }
}
