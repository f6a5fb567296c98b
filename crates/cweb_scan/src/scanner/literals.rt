// Literals, raw or not, and included names, each as one slice of the source, over any number of lines.
ghost use Rattle.std.specs.Prelude.{bytes_eq, codes, ◌≡◌, ◌≤◌, ◌++◌, [], ◌∷◌, IfOk, OnOk, length, take, true};
ghost use Rattle.cweb_rules.specs.laws.Laws.{at_line_ends};
ghost use Rattle.cweb_rules.specs.Items as spec;
ghost use Rattle.cweb_rules.specs.declared.end.End.TheVariants as ends;
ghost use Rattle.cweb_rules.specs.inner.LineItems.{look_of, reached};

use crate::scanner::Scanner;
use crate::scanner::codes::ended;
use crate::skipped::skipped_len;
use cweb_files::Place;
use cweb_rules::items::{Item, reach};
use cweb_rules::literals::{literal_prefix, quote_of, raw_closer, raw_opener_len};
use cweb_rules::{End, Look, ScanKind, push_unit, push_units};
use std::alloc::AllocError;

// The number of newlines.
fn newlines(bytes: &[u8]) -> usize
    ensures { result ≡ at_line_ends 1 bytes.now }
{
    let mut count = 0;
    'bytes: for byte in bytes {
        if *byte == b'\n' {
            count += 1;
        }
    }
    count
}

// Whether a unit is an `@` that isn't doubled.
fn is_lone_at(unit: &[u8]) -> bool
    ensures { result ≡ bytes_eq unit.now (codes "@") }
{
    unit == b"@".as_slice()
}

// Appends the units of a literal after its opener, which have `size` bytes. Most have no `@`: then they are one copy.
fn push_body(
    text: &mut Vec<u8>,
    item: Item<'_>,
    inner: &[u8],
    size: usize,
) -> Result<(), AllocError>
    requires { size ≡ (reached (spec.reach (look_of item) ends.Open inner.now)).size }
    ensures { OnOk result (text.new.items ≡ text.old.items
        ++ spec.unescaped (spec.reach (look_of item.entry) ends.Open inner.now).units) }
{
    let (whole, _) = inner.split_at(size);
    if skipped_len(whole) == whole.len() {
        text.extend_from_slice(whole)?;
        return Ok(());
    }
    push_units(text, item, inner)
}

impl Scanner {
    ghost use Rattle.cweb_rules.specs.Items.{body};
    ghost use Rattle.cweb_rules.specs.Matches.{literal_match, raw_match};
    ghost use Rattle.cweb_rules.specs.Literals.{starts_literal, starts_raw};
    ghost use Rattle.cweb_scan.specs.inner.MatchSteps.{AppliesOver};
    ghost use Rattle.cweb_scan.specs.inner.PendingItems.{quoted_as, PassesUnits};
    ghost use Rattle.cweb_scan.specs.inner.ReaderModel.{CanEmit};

    // Reports the fault of a literal's unit, and moves over its newlines. Returns the places after them.
    fn pass_unit<'a>(&mut self, unit: &[u8], places: &'a [Place]) -> Result<&'a [Place], AllocError>
        requires { at_line_ends 1 unit.now ≤ length places.now }
        ensures { IfOk result (λ left.
            PassesUnits (unit.now ∷ []) places.now left.now self.old self.new) }
    {
        if is_lone_at(unit) {
            self.fault(ScanKind::DoubleAtInString, self.here)?;
            return Ok(places);
        }
        let (passed, left) = places.split_at(newlines(unit));
        self.pass_lines(passed);
        Ok(left)
    }

    // Passes the units of a literal after its opener, which have `size` bytes. Most have no `@`: then they pass as one.
    fn pass_units<'a>(
        &mut self,
        item: Item<'_>,
        inner: &[u8],
        size: usize,
        places: &'a [Place],
    ) -> Result<&'a [Place], AllocError>
        requires size { size ≡ (reached (spec.reach (look_of item) ends.Open inner.now)).size }
        requires lines { at_line_ends 1
            (body (spec.reach (look_of item) ends.Open inner.now)) ≤ length places.now }
        ensures { IfOk result (λ left.
            PassesUnits (spec.reach (look_of item.entry) ends.Open inner.now).units
            places.now left.now self.old self.new) }
    {
        let (whole, _) = inner.split_at(size);
        if skipped_len(whole) == whole.len() {
            return self.pass_unit(whole, places);
        }
        self.pass_each_unit(item, inner, places)
    }

    fn pass_each_unit<'a>(
        &mut self,
        item: Item<'_>,
        inner: &[u8],
        places: &'a [Place],
    ) -> Result<&'a [Place], AllocError>
        requires { at_line_ends 1
            (body (spec.reach (look_of item) ends.Open inner.now)) ≤ length places.now }
        ensures { IfOk result (λ left.
            PassesUnits (spec.reach (look_of item.entry) ends.Open inner.now).units
            places.now left.now self.old self.new) }
    {
        let mut rest = inner;
        let mut left = places;
        'units: while !rest.is_empty() {
            let Look::Goes(size) = item.look(rest) else {
                return Ok(left);
            };
            let (unit, after) = rest.split_at(size.min(rest.len()));
            left = self.pass_unit(unit, left)?;
            rest = after;
        }
        Ok(left)
    }

    /// A literal, raw or not, or an included name, with an opener of this size. Returns its size.
    pub fn take_quoted(
        &mut self,
        opener: usize,
        item: Item<'_>,
        text: &[u8],
        places: &[Place],
    ) -> Result<usize, AllocError>
        requires within { opener ≤ length text.now }
        requires part { CanEmit 1 self.old }
        requires lines { at_line_ends 1
            (take (quoted_as opener item text.now).size text.now) ≡ length places.now }
        ensures { IfOk result (λ n. AppliesOver (quoted_as opener item.entry text.now)
            text.now places.now n self.old self.new) }
    {
        let begun = self.here;
        let (first, inner) = text.split_at(opener);
        let reached = reach(item, inner);
        let (_, closing) = text.split_at(opener + reached.size);
        let (close, _) = closing.split_at(reached.close);
        let mut bytes = Vec::new(self.alloc);
        push_unit(&mut bytes, first)?;
        push_body(&mut bytes, item, inner, reached.size)?;
        push_unit(&mut bytes, close)?;
        let left = self.pass_unit(first, places)?;
        let left = self.pass_units(item, inner, reached.size, left)?;
        self.pass_unit(close, left)?;
        self.emit_literal(&bytes, ended(End::Cut, reached.how), begun)?;
        Ok(opener + (reached.size + reached.close))
    }

    /// A literal with its prefix. Returns its size.
    pub fn take_literal(&mut self, text: &[u8], places: &[Place]) -> Result<usize, AllocError>
        requires starts { starts_literal text.now ≡ true }
        requires part { CanEmit 1 self.old }
        requires lines { at_line_ends 1 (take (literal_match text.now).size text.now)
            ≡ length places.now }
        ensures { IfOk result
            (λ n. AppliesOver (literal_match text.now) text.now places.now n self.old self.new) }
    {
        let prefix = literal_prefix(text);
        let quote = quote_of(text.split_at(prefix).1);
        self.take_quoted(prefix + 1, Item::Literal(quote), text, places)
    }

    /// A raw literal with its prefix. Returns its size.
    pub fn take_raw(&mut self, text: &[u8], places: &[Place]) -> Result<usize, AllocError>
        requires starts { starts_raw text.now ≡ true }
        requires part { CanEmit 1 self.old }
        requires lines { at_line_ends 1 (take (raw_match text.now).size text.now)
            ≡ length places.now }
        ensures { IfOk result
            (λ n. AppliesOver (raw_match text.now) text.now places.now n self.old self.new) }
    {
        let closer = raw_closer(self.alloc, text)?;
        self.take_quoted(
            raw_opener_len(text),
            Item::RawLiteral(&closer),
            text,
            places,
        )
    }
}
