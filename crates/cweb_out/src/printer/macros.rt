// Writes macro lines to a sink.
ghost use Rattle.std.specs.Prelude.{◌≡◌, ◌≤◌, ◌<◌, ◌+◌, ◌^◌, ◌++◌, length, map, IfOk, flat_map};
ghost use Rattle.cweb_files.specs.surface.Writes.{Wrote};
ghost use Rattle.cweb_store.specs.surface.Tokens.{token_model};
ghost use Rattle.cweb_store.specs.inner.DirectBytes.{direct_bytes};
ghost use Rattle.cweb_store.specs.Parts.{all_tokens};
ghost use Rattle.cweb_out.specs.Printing.{macro_line, macros, replaced_in};
ghost use Rattle.cweb_out.specs.inner.Edges.{added, all_added, continuation_bytes, macro_by};
ghost use Rattle.cweb_out.specs.inner.Edges.{continued_by, edge_is_apart, token_at};
ghost use Rattle.cweb_out.specs.surface.Printed.{at_start, left_after_token, tokens_of_part};
ghost use Rattle.cweb_out.specs.inner.BufferedPrinting.{blank_where};
ghost use Rattle.cweb_store.specs.inner.StringLists.{token_bytes_model};

use crate::chunks::{ChunkSink, write_blank};
use crate::printer::edges::{edge_is_apart, is_apart};
use crate::printer::left::Left;
use crate::printer::plain::write_plain;
use cweb_files::SinkFault;
use cweb_store::{Edge, Part, Store, Token, TokenBytes, TokenReader};

/// Writes the lines of all macros, in order.
#[inline(never)]
pub(crate) fn write_macros<W: ChunkSink>(store: &Store, out: &mut W) -> Result<(), SinkFault>
    requires { (W.model out.old).failed + 1 < 2 ^ 64 }
    ensures wrote { Wrote (flat_map (macro_line (replaced_in store.now)) (macros store.now))
        (W.model out.old) (W.model out.new) result }
    ensures borrows { W.borrows out.new ≡ W.borrows out.old }
{
    let mut parts = store.macros();
    'macros: while let Some(part) = parts.next() {
        write_macro(store, part, out)?;
    }
    Ok(())
}

pub(crate) fn write_macro<W: ChunkSink>(
    store: &Store,
    part: Part,
    out: &mut W,
) -> Result<(), SinkFault>
    requires count { (W.model out.old).failed + 1 < 2 ^ 64 }
    requires ordered { part.first ≤ part.after }
    requires within { part.after ≤ length (all_tokens store.now.parts) }
    ensures wrote { Wrote (macro_line (replaced_in store.now) (tokens_of_part store.now part))
        (W.model out.old) (W.model out.new) result }
    ensures borrows { W.borrows out.new ≡ W.borrows out.old }
{
    out.put(b"#define ")?;
    write_macro_tokens(store, part, out)?;
    out.put(b"\n")
}

fn write_macro_tokens<W: ChunkSink>(store: &Store, part: Part, out: &mut W) -> Result<(), SinkFault>
    requires count { (W.model out.old).failed + 1 < 2 ^ 64 }
    requires ordered { part.first ≤ part.after }
    requires within { part.after ≤ length (all_tokens store.now.parts) }
    ensures wrote { Wrote
        (all_added (macro_by (replaced_in store.now)) at_start (tokens_of_part store.now part))
        (W.model out.old) (W.model out.new) result }
    ensures borrows { W.borrows out.new ≡ W.borrows out.old }
{
    let token_reader = store.token_reader();
    let mut left = Left::start();
    'tokens: for number in part.first..part.after {
        left = write_macro_token(store, &token_reader, left, number, out)?;
    }
    Ok(())
}

// Writes a token and returns the state after it.
#[inline(always)]
fn write_macro_token<W: ChunkSink>(
    store: &Store,
    token_reader: &TokenReader<'_>,
    left: Left,
    number: u32,
    out: &mut W,
) -> Result<Left, SinkFault>
    requires count { (W.model out.old).failed + 1 < 2 ^ 64 }
    requires reader { token_reader.now ≡ map direct_bytes (all_tokens store.now.parts) }
    requires within { number < length (all_tokens store.now.parts) }
    ensures next { IfOk result (λ next. next ≡ left_after_token left (token_at store.now number)) }
    ensures wrote { Wrote
        (added (macro_by (replaced_in store.now)) left (token_at store.now number))
        (W.model out.old) (W.model out.new) result }
    ensures borrows { W.borrows out.new ≡ W.borrows out.old }
{
    if let (false, Some(direct)) = (left.joined, token_reader.direct(number)) {
        write_direct(left.last, direct, out)?;
        return Ok(Left {
            last: direct.edge,
            joined: false,
        });
    }
    write_other(store, left, number, out)
}

// Fast path: writes a token that is printed as its own bytes.
#[inline(always)]
fn write_direct<W: ChunkSink>(
    last: Edge,
    direct: TokenBytes<'_>,
    out: &mut W,
) -> Result<(), SinkFault>
    requires { (W.model out.old).failed + 1 < 2 ^ 64 }
    ensures wrote { Wrote
        (blank_where (edge_is_apart last direct.entry.edge)
        ++ continued_by (token_bytes_model direct.entry))
        (W.model out.old) (W.model out.new) result }
    ensures borrows { W.borrows out.new ≡ W.borrows out.old }
{
    write_blank(out, edge_is_apart(last, direct.edge))?;
    out.put(continued_bytes(direct))
}

// A newline in a macro becomes a backslash and a newline.
#[inline(always)]
fn continued_bytes(direct: TokenBytes<'_>) -> &[u8]
    ensures { result.now ≡ continued_by (token_bytes_model direct.entry) }
{
    match direct.edge {
        Edge::LineEnd => b" \\\n",
        _ => direct.string,
    }
}

// Slow path. It is apart, so that the loop above needs fewer registers.
#[inline(never)]
fn write_other<W: ChunkSink>(
    store: &Store,
    left: Left,
    number: u32,
    out: &mut W,
) -> Result<Left, SinkFault>
    requires count { (W.model out.old).failed + 1 < 2 ^ 64 }
    requires within { number < length (all_tokens store.now.parts) }
    ensures next { IfOk result (λ next. next ≡ left_after_token left (token_at store.now number)) }
    ensures wrote { Wrote
        (added (macro_by (replaced_in store.now)) left (token_at store.now number))
        (W.model out.old) (W.model out.new) result }
    ensures borrows { W.borrows out.new ≡ W.borrows out.old }
{
    let token = store.token(number);
    write_spaced(store, left, &token, out)?;
    Ok(left.after(&token))
}

fn write_spaced<W: ChunkSink>(
    store: &Store,
    left: Left,
    token: &Token<'_>,
    out: &mut W,
) -> Result<(), SinkFault>
    requires { (W.model out.old).failed + 1 < 2 ^ 64 }
    ensures wrote { Wrote (added (macro_by (replaced_in store.now)) left (token_model token.now))
        (W.model out.old) (W.model out.new) result }
    ensures borrows { W.borrows out.new ≡ W.borrows out.old }
{
    if left.drops(token) {
        return Ok(());
    }
    write_blank(out, is_apart(left.last, token))?;
    out.put(continued(token))?;
    write_plain(store, token, out)
}

// A newline in a macro needs a backslash before it.
fn continued(token: &Token<'_>) -> &'static [u8]
    ensures { result.now ≡ continuation_bytes (token_model token.now) }
{
    match token {
        Token::Newline => b" \\",
        _ => b"",
    }
}
