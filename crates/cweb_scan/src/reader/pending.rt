// Pending items: the reader stores the source of an item until a line ends it.
ghost use Rattle.std.specs.Prelude.{◌≡◌, [], IfOk, OnOk, false, true};

use crate::reader::Reader;
use crate::reader::open::Open;
use crate::reader::opened::is_unclosed;
use cweb_files::Place;
use cweb_rules::continues;
use cweb_rules::items::{Item, reach};
use cweb_rules::literals::{literal_prefix, quote_of, raw_closer};
use std::alloc::AllocError;

impl Reader {
    ghost use Rattle.cweb_rules.specs.inner.LineItems.{opens_in};
    ghost use Rattle.cweb_scan.specs.inner.ReaderModel.{is_pending, pending_text, with_line, holding};
    ghost use Rattle.cweb_scan.specs.inner.ReaderModel.{BeginsLine, HasLineRoom};
    ghost use Rattle.cweb_scan.specs.inner.PendingItems.{is_between, IsPending};

    /// Whether an item is open.
    #[inline(always)]
    pub(crate) fn is_pending(&self) -> bool
        ensures { result ≡ is_pending self.now.item }
    {
        !matches!(self.item, Open::Between)
    }

    /// Stores the source of an item that its line leaves open.
    pub(crate) fn hold(&mut self, kind: Open, text: &[u8]) -> Result<(), AllocError>
        requires kind { is_between kind ≡ false }
        requires source { IsPending kind self.old.state.context text.now [] }
        ensures { OnOk result (self.new ≡ holding text.now self.old) }
    {
        self.item = Open::Between;
        self.pending.clear();
        self.pending.extend_from_slice(text)?;
        self.places.clear();
        self.item = kind;
        Ok(())
    }

    // Whether the next line leaves the pending item open.
    fn stays_pending(&self, line: &[u8]) -> Result<bool, AllocError>
        requires { is_pending self.now.item ≡ true }
        ensures { IfOk result (λ stays. stays
            ≡ opens_in self.now.state.context (with_line (pending_text self.now.item) line.now)) }
    {
        match self.item {
            Open::Name => Ok(is_unclosed(reach(Item::Name, line).how)),
            Open::Literal => {
                let prefix = literal_prefix(&self.pending);
                let quote = quote_of(self.pending.split_at(prefix).1);
                Ok(continues(quote, line))
            }
            Open::RawLiteral => {
                let closer = raw_closer(self.alloc, &self.pending)?;
                Ok(is_unclosed(reach(Item::RawLiteral(&closer), line).how))
            }
            _ => Ok(is_unclosed(reach(Item::Comment, line).how)),
        }
    }

    /// Goes on with the pending item in the next line, and takes it if the line ends it. Returns the number of bytes.
    #[inline(never)]
    pub(crate) fn go_on(&mut self, place: Place, line: &[u8]) -> Result<usize, AllocError>
        requires begun { self.old.begun ≡ true }
        requires pending { is_pending self.old.item ≡ true }
        requires room { HasLineRoom line.now self.old }
        ensures { IfOk result (λ n. BeginsLine place line.now n self.old self.new) }
    {
        let stays = self.stays_pending(line)?;
        let kind = self.item;
        self.item = Open::Between;
        self.pending.push(b'\n')?;
        self.pending.extend_from_slice(line)?;
        self.places.push(place)?;
        if stays {
            self.item = kind;
            return Ok(line.len());
        }
        let size = self.scanner.take_whole(kind, &self.pending, &self.places)?;
        Ok(size - (self.pending.len() - line.len()))
    }
}
