// Prints into the buffer of a sink.
ghost use Rattle.std.specs.Prelude.{◌≡◌, ◌<◌, ◌+◌, ◌^◌, [], OnOk, OnErr};
ghost use Rattle.cweb_files.specs.Sinks.{written};
ghost use Rattle.cweb_files.specs.surface.Writes.{Wrote};
ghost use Rattle.cweb_store.specs.surface.Tokens.{token_model};
ghost use Rattle.cweb_out.specs.inner.Edges.{added, file_by};
ghost use Rattle.cweb_out.specs.surface.Printed.{left_after_tokens, MarkFileIsNamed, EndsFile};
ghost use Rattle.cweb_out.specs.surface.Printed.{Moves, PrintsToken, left_in_printer, setting_of};

use crate::buffer::BufferedSink;
use crate::printer::left::Left;
use crate::{OutBuffer, Printer};
use cweb_files::{Sink, SinkFault};
use cweb_store::Token;

impl<'a> Printer<'a> {
    /// Prints a token as `write` does, but after the buffered bytes. The sink's bytes followed by the buffered ones are
    /// what `write` would have put into the sink.
    pub fn append<W: Sink>(
        &mut self,
        token: Token<'_>,
        buffer: &mut OutBuffer,
        out: &mut W,
    ) -> Result<(), SinkFault>
        requires count { (W.model out.old).failed + 1 < 2 ^ 64 }
        requires named { MarkFileIsNamed (setting_of self.old) (token_model token) }
        ensures setting { setting_of self.new ≡ setting_of self.old }
        ensures moves { OnOk result
            (Moves (left_in_printer self.old) (token_model token.entry) (left_in_printer self.new)) }
        ensures err { OnErr result (self.new ≡ self.old) }
        ensures prints { PrintsToken self.old (token_model token.entry)
            (written buffer.old.bytes (W.model out.old))
            (written buffer.new.bytes (W.model out.new)) result }
    {
        self.append_token(token, buffer, out)?;
        self.left = self.left.after(&token);
        Ok(())
    }

    /// Ends the last line of a file, flushes the buffer, and resets to the start of the next file.
    pub fn finish<W: Sink>(&mut self, buffer: &mut OutBuffer, out: &mut W) -> Result<(), SinkFault>
        requires { (W.model out.old).failed + 1 < 2 ^ 64 }
        ensures setting { setting_of self.new ≡ setting_of self.old }
        ensures left { OnOk result (left_after_tokens [] ≡ left_in_printer self.new) }
        ensures err { OnErr result (self.new ≡ self.old) }
        ensures ends { EndsFile self.old (written buffer.old.bytes (W.model out.old))
            (written buffer.new.bytes (W.model out.new)) result }
        ensures empty { OnOk result (buffer.new.bytes ≡ []) }
    {
        buffer.append(self.begin_line(), out)?;
        buffer.flush(out)?;
        self.left = Left::start();
        Ok(())
    }

    #[inline(always)]
    fn append_token<W: Sink>(
        &self,
        token: Token<'_>,
        buffer: &mut OutBuffer,
        out: &mut W,
    ) -> Result<(), SinkFault>
        requires count { (W.model out.old).failed + 1 < 2 ^ 64 }
        requires named { MarkFileIsNamed (setting_of self.now) (token_model token) }
        ensures { Wrote
            (added (file_by (setting_of self.now)) (left_in_printer self.now)
            (token_model token.entry))
            (written buffer.old.bytes (W.model out.old))
            (written buffer.new.bytes (W.model out.new)) result }
    {
        let mut both = BufferedSink { buffer, sink: out };
        self.put_token(&token, &mut both)
    }
}
