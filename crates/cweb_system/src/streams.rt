// Standard streams as sinks, and single reads and writes.
ghost use Rattle.std.specs.Prelude.{◌≡◌, ◌≤◌, ◌<◌, ◌+◌, ◌^◌, [], None, Some, true, length, take, IfOk, OnErr, IsTrue};
ghost use Rattle.std.specs.Option.{is_some, unwrap_or};
ghost use Rattle.std.proofs.Props.{props};
ghost use Rattle.std.specs.Io.KnownBytes.{ReadConsumes};
ghost use Rattle.cweb_system.specs.inner.StreamCalls.{WritesPart};
ghost use Rattle.cweb_files.specs.Sinks.{failed_once, written};

use cweb_files::{ShelfFault, Sink, SinkFault};
use std::io::{ErrorKind, Read, Write};

/// Reads the next bytes of a file once. The read is repeated if a signal interrupts it.
pub fn read_once<F: Read>(file: &mut F, piece: &mut [u8]) -> Result<usize, ShelfFault>
    ensures within { IfOk result (λ n. n ≤ length piece.new) }
    ensures passes { ReadConsumes (F.remaining file.old) (F.remaining file.new) result piece.new }
{
    for _ in 0..u64::MAX {
        match file.read(piece) {
            Ok(n) => return Ok(n),
            Err(error) => match error.kind() {
                ErrorKind::Interrupted => {}
                _ => return Err(ShelfFault),
            },
        }
    }
    Err(ShelfFault)
}

/// A stream to write to, such as standard output. It isn't buffered.
#[derive(Drop)]
pub struct StdSink<W: Write + Drop> {
    stream: W,
    failed: u64,
    /// Whether contracts know what the stream contains. It never changes.
    is_known: bool,
    ghost known: { IsTrue is_known → is_some (W.contents stream) ≡ true } by { Prim.hlevel props },
}

impl<W: Write + Drop> StdSink<W> {
    ghost use Rattle.cweb_files.specs.surface.Writes.{always_open};
    ghost use Rattle.cweb_system.specs.inner.Streams.{sink_model};

    /// A sink without failures so far. It isn't observable.
    pub fn new(stream: W) -> Self
        ensures { sink_model W.Write result ≡ record { failed = 0; contents = None } }
    {
        StdSink {
            stream,
            failed: 0,
            is_known: false,
        }
    }

    /// A sink over a stream whose contents are known, such as a `Vec`. It is observable.
    pub fn observable(stream: W) -> Self
        requires { is_some (W.contents stream) ≡ true }
        ensures { sink_model W.Write result ≡ record {
          failed = 0;
          contents = Some (record {
            bytes = unwrap_or (W.contents stream) [];
            beside = always_open;
          });
        } }
    {
        StdSink {
            stream,
            failed: 0,
            is_known: true,
        }
    }
}

impl<W: Write + Drop> Sink for StdSink<W> {
    ghost use Rattle.cweb_system.specs.inner.Streams.{sink_model, stream_of};

    ghost model = { sink_model W.Write };

    /// The bytes go to the stream in order; none is lost or added.
    fn write(&mut self, piece: &[u8]) -> Result<usize, SinkFault>
        requires { (sink_model W.Write self.old).failed + 1 < 2 ^ 64 }
        ensures ok { IfOk result (λ n. sink_model W.Write self.new
            ≡ written (take n piece.now) (sink_model W.Write self.old)) }
        ensures err { OnErr result
            (sink_model W.Write self.new ≡ failed_once (sink_model W.Write self.old)) }
        ensures passes { WritesPart (W.contents (stream_of self.old))
            (W.contents (stream_of self.new)) piece.now result }
    {
        let taken = write_once(&mut self.stream, piece);
        if taken.is_err() {
            self.failed += 1;
        }
        taken
    }

    fn failures(&self) -> u64 {
        self.failed
    }
}

/// One write, repeated if a signal interrupts it. It is a failure if the stream takes nothing of a nonempty chunk.
pub(crate) fn write_once<W: Write>(stream: &mut W, piece: &[u8]) -> Result<usize, SinkFault>
    ensures { WritesPart (W.contents stream.old) (W.contents stream.new) piece.now result }
{
    for _ in 0..u64::MAX {
        match stream.write(piece) {
            Ok(0) if !piece.is_empty() => return Err(SinkFault),
            Ok(taken) => return Ok(taken),
            Err(error) => match error.kind() {
                ErrorKind::Interrupted => {}
                _ => return Err(SinkFault),
            },
        }
    }
    Err(SinkFault)
}
