// Openers: lexemes that begin an item.
ghost use Rattle.std.specs.Prelude.{◌≡◌, IfOk, codes, true, false};

use crate::reader::Reader;
use crate::reader::open::Open;
use crate::reader::opened::is_unclosed;
use crate::rest::Rest;
use cweb_rules::continues;
use cweb_rules::items::{Item, reach, reach_after};
use cweb_rules::literals::{literal_prefix, quote_of, raw_closer, raw_opener_len};
use std::alloc::AllocError;

impl Reader {
    ghost use Rattle.cweb_rules.specs.Bytes as spec;
    ghost use Rattle.cweb_rules.specs.Literals.{starts_raw, starts_literal};
    ghost use Rattle.cweb_rules.specs.inner.LineItems.{IsPast};
    ghost use Rattle.cweb_scan.specs.inner.MatchSteps.{is_head, reads_c, reads_names, starts_name};
    ghost use Rattle.cweb_scan.specs.inner.ScanParts.{in_open_part};
    ghost use Rattle.cweb_scan.specs.inner.ReaderModel.{AwaitsLexeme, MakesProgress};

    /// `/*`. Like the functions below, it returns the number of bytes taken.
    #[inline(never)]
    pub(crate) fn open_comment(&mut self, rest: Rest<'_>) -> Result<usize, AllocError>
        requires next { AwaitsLexeme (reads_c self.old.state.context ≡ true) self.old }
        requires opens { spec.begins (codes "/*") rest.bytes.now ≡ true }
        ensures { IfOk result (λ n. MakesProgress n rest.entry.bytes.now self.old self.new) }
    {
        let (_, inner) = rest.bytes.split_at(2);
        let reached = reach(Item::Comment, inner);
        if is_unclosed(reached.how) {
            self.hold(Open::Comment, rest.bytes)?;
            return Ok(rest.bytes.len());
        }
        self.scanner.take_comment(reached, rest.bytes, &[])
    }

    /// `@<`, or `@(` for a file.
    #[inline(never)]
    pub(crate) fn open_name(&mut self, rest: Rest<'_>) -> Result<usize, AllocError>
        requires next { AwaitsLexeme (reads_names self.old.state.context ≡ true) self.old }
        requires head { is_head self.old.state.context ≡ false }
        requires opens { starts_name rest.bytes.now ≡ true }
        ensures { IfOk result (λ n. MakesProgress n rest.entry.bytes.now self.old self.new) }
    {
        let (_, inner) = rest.bytes.split_at(2);
        let plain = Item::Name.plain_len(inner);
        let reached = reach_after(Item::Name, inner, plain);
        if is_unclosed(reached.how) {
            self.hold(Open::Name, rest.bytes)?;
            return Ok(rest.bytes.len());
        }
        self.scanner.take_name(reached, plain, rest.bytes, &[])
    }

    /// A quote with an optional prefix.
    #[inline(never)]
    pub(crate) fn open_literal(&mut self, rest: Rest<'_>) -> Result<usize, AllocError>
        requires next { AwaitsLexeme (in_open_part self.old.state.context ≡ true) self.old }
        requires past { IsPast rest.bytes.now }
        requires plain { starts_raw rest.bytes.now ≡ false }
        requires opens { starts_literal rest.bytes.now ≡ true }
        ensures { IfOk result (λ n. MakesProgress n rest.entry.bytes.now self.old self.new) }
    {
        let prefix = literal_prefix(rest.bytes);
        let quote = quote_of(rest.bytes.split_at(prefix).1);
        if continues(quote, rest.bytes.split_at(prefix + 1).1) {
            self.hold(Open::Literal, rest.bytes)?;
            return Ok(rest.bytes.len());
        }
        self.scanner.take_literal(rest.bytes, &[])
    }

    /// `R"` with an optional prefix, a delimiter and `(`.
    #[inline(never)]
    pub(crate) fn open_raw(&mut self, rest: Rest<'_>) -> Result<usize, AllocError>
        requires next { AwaitsLexeme (in_open_part self.old.state.context ≡ true) self.old }
        requires past { IsPast rest.bytes.now }
        requires opens { starts_raw rest.bytes.now ≡ true }
        ensures { IfOk result (λ n. MakesProgress n rest.entry.bytes.now self.old self.new) }
    {
        let closer = raw_closer(self.alloc, rest.bytes)?;
        let (_, inner) = rest.bytes.split_at(raw_opener_len(rest.bytes));
        if is_unclosed(reach(Item::RawLiteral(&closer), inner).how) {
            self.hold(Open::RawLiteral, rest.bytes)?;
            return Ok(rest.bytes.len());
        }
        self.scanner.take_raw(rest.bytes, &[])
    }
}
