// A sink over a stream in memory, whose contents are known.
ghost use Rattle.std.specs.Prelude.{◌≡◌, ◌++◌, [], IfOk, Some, true};
ghost use Rattle.std.specs.Option.{is_some, unwrap_or};
ghost use Rattle.cweb_files.specs.surface.Writes.{always_open};
ghost use Rattle.cweb_system.specs.inner.Streams.{sink_model};

use cweb_files::{Sink, SinkFault, write_all};
use cweb_system::StdSink;
use std::io::Write;
use std::process::Abort;

/// Writes two pieces to a stream.
fn filled<W: Write + Drop>(stream: W, first: &[u8], second: &[u8]) -> Result<StdSink<W>, SinkFault>
    requires { is_some (W.contents stream) ≡ true }
    ensures { IfOk result (λ sink. sink_model W.Write sink ≡ record {
      failed = 0;
      contents = Some (record {
        bytes = (unwrap_or (W.contents stream) [] ++ first.now) ++ second.now;
        beside = always_open;
      });
    }) }
{
    let mut sink = StdSink::observable(stream);
    write_all(&mut sink, first)?;
    write_all(&mut sink, second)?;
    Ok(sink)
}

fn holds(rt: &impl Abort, is_so: bool) {
    assert!(rt; is_so);
}

#[test]
fn a_stream_has_the_bytes_in_order(rt: HostRuntime) {
    let mut text = Vec::new(rt.alloc());
    match filled(&mut text, b"ab", b"c") {
        Ok(sink) => holds(&rt, sink.failures() == 0),
        Err(_) => holds(&rt, false),
    }
    holds(&rt, text.as_slice() == b"abc".as_slice());
}
