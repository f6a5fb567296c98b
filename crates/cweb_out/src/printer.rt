// The printer of tokens.
ghost use Rattle.std.specs.Prelude.{◌≡◌, ◌<◌, ◌+◌, ◌^◌, [], OnOk, OnErr};
ghost use Rattle.cweb_files.specs.surface.Writes.{Wrote};
ghost use Rattle.cweb_lines.specs.surface.OpenedFileNames.{opened_file_names};
ghost use Rattle.cweb_store.specs.surface.Tokens.{token_model};
ghost use Rattle.cweb_out.specs.inner.Edges.{added, begin_by, file_by, own_line_bytes};
ghost use Rattle.cweb_out.specs.surface.Printed.{left_after_tokens, MarkFileIsNamed, EndsFile};
ghost use Rattle.cweb_out.specs.surface.Printed.{Moves, PrintsToken, left_in_printer, setting_of};
ghost use Rattle.cweb_out.specs.Printing.{setting};

pub mod buffered;
pub mod direct_range;
pub mod edges;
pub mod left;
pub mod macros;
pub mod mark;
pub mod plain;

use crate::chunks::{ChunkSink, write_blank};
use crate::printer::edges::is_apart;
use crate::printer::left::Left;
use crate::printer::macros::write_macros;
use crate::printer::mark::write_mark;
use crate::printer::plain::write_plain;
use cweb_files::{Sink, SinkFault, write_all};
use cweb_lines::FileNames;
use cweb_store::{Edge, Store, Token};

/// Prints tokens in order. It stores the last token's edge and whether a join is open. It isn't called after a fault.
#[derive(Drop)]
pub struct Printer<'a> {
    store: &'a Store,
    names: &'a FileNames,
    left: Left,
}

impl<'a> Printer<'a> {
    /// A printer at the start of a file. It reads the store's macros and replacements, and `names` for line marks.
    pub fn new(store: &'a Store, names: &'a FileNames) -> Printer<'a>
        ensures setting { setting_of result
            ≡ setting store.entry.now (opened_file_names names.entry.now) }
        ensures left { left_after_tokens [] ≡ left_in_printer result }
    {
        Printer {
            store,
            names,
            left: Left::start(),
        }
    }

    /// Prints a token: what it adds to the output so far, after a fault a prefix. A use prints nothing. No allocation.
    #[inline]
    pub fn write<W: Sink>(&mut self, token: Token<'_>, out: &mut W) -> Result<(), SinkFault>
        requires count { (W.model out.old).failed + 1 < 2 ^ 64 }
        requires named { MarkFileIsNamed (setting_of self.old) (token_model token) }
        ensures setting { setting_of self.new ≡ setting_of self.old }
        ensures moves { OnOk result
            (Moves (left_in_printer self.old) (token_model token.entry) (left_in_printer self.new)) }
        ensures err { OnErr result (self.new ≡ self.old) }
        ensures prints { PrintsToken self.old (token_model token.entry)
            (W.model out.old) (W.model out.new) result }
    {
        self.write_token(&token, out)?;
        self.left = self.left.after(&token);
        Ok(())
    }

    /// Ends the last line of a file and resets to the start of the next one. Allocates nothing.
    pub fn end<W: Sink>(&mut self, out: &mut W) -> Result<(), SinkFault>
        requires { (W.model out.old).failed + 1 < 2 ^ 64 }
        ensures setting { setting_of self.new ≡ setting_of self.old }
        ensures left { OnOk result (left_after_tokens [] ≡ left_in_printer self.new) }
        ensures err { OnErr result (self.new ≡ self.old) }
        ensures ends { EndsFile self.old (W.model out.old) (W.model out.new) result }
    {
        write_all(out, self.begin_line())?;
        self.left = Left::start();
        Ok(())
    }

    fn write_token<W: Sink>(&self, token: &Token<'_>, out: &mut W) -> Result<(), SinkFault>
        requires count { (W.model out.old).failed + 1 < 2 ^ 64 }
        requires named { MarkFileIsNamed (setting_of self.now) (token_model token.now) }
        ensures wrote { Wrote
            (added (file_by (setting_of self.now)) (left_in_printer self.now)
            (token_model token.now))
            (W.model out.old) (W.model out.new) result }
    {
        let mut chunks = out;
        self.put_token(token, &mut chunks)
    }

    /// Writes the bytes of a token, and a blank before them if one is wanted.
    #[inline(always)]
    fn put_token<W: ChunkSink>(&self, token: &Token<'_>, out: &mut W) -> Result<(), SinkFault>
        requires count { (W.model out.old).failed + 1 < 2 ^ 64 }
        requires named { MarkFileIsNamed (setting_of self.now) (token_model token.now) }
        ensures wrote { Wrote
            (added (file_by (setting_of self.now)) (left_in_printer self.now)
            (token_model token.now))
            (W.model out.old) (W.model out.new) result }
        ensures borrows { W.borrows out.new ≡ W.borrows out.old }
    {
        if self.left.drops(token) {
            return Ok(());
        }
        write_blank(out, is_apart(self.left.last, token))?;
        self.write_placed(token, out)?;
        write_plain(self.store, token, out)
    }

    #[inline(always)]
    fn write_placed<W: ChunkSink>(&self, token: &Token<'_>, out: &mut W) -> Result<(), SinkFault>
        requires count { (W.model out.old).failed + 1 < 2 ^ 64 }
        requires named { MarkFileIsNamed (setting_of self.now) (token_model token.now) }
        ensures wrote { Wrote
            (own_line_bytes (setting_of self.now) (left_in_printer self.now).last
            (token_model token.now))
            (W.model out.old) (W.model out.new) result }
        ensures borrows { W.borrows out.new ≡ W.borrows out.old }
    {
        match token {
            Token::Mark(place) => {
                let name = self.names.get(place.file).as_bytes();
                write_mark(self.begin_line(), name, place.line, out)
            }
            Token::Defs => {
                out.put(self.begin_line())?;
                write_macros(self.store, out)
            }
            _ => Ok(()),
        }
    }

    // A newline, or nothing at the start of a line.
    fn begin_line(&self) -> &'static [u8]
        ensures { result.now ≡ begin_by (left_in_printer self.now).last }
    {
        match self.left.last {
            Edge::LineEnd => b"",
            _ => b"\n",
        }
    }
}
