// The bytes of tokens that don't depend on the previous token.
ghost use Rattle.std.specs.Prelude.{◌≡◌, ◌<◌, ◌+◌, ◌^◌, nat_le};
ghost use Rattle.std.specs.List.{list_any};
ghost use Rattle.cweb_files.specs.surface.Writes.{Wrote};
ghost use Rattle.cweb_store.specs.surface.Tokens.{token_model};
ghost use Rattle.cweb_out.specs.Printing.{plain_bytes, word_byte, word_bytes, hex_digit, replaced_in};
ghost use Rattle.cweb_out.specs.inner.Edges.{numbered_comment};

use crate::chunks::{ChunkSink, write_three};
use cweb_files::SinkFault;
use cweb_store::{Store, Token};
use itoa::Buffer;

fn hex_digit(n: u8) -> u8
    requires { n < 16 }
    ensures { result ≡ hex_digit n }
{
    b"0123456789ABCDEF"[n as usize]
}

// The replacement of a byte from 128 on: the store's, or `X` and two hexadecimal digits.
fn write_replaced<W: ChunkSink>(store: &Store, byte: u8, out: &mut W) -> Result<(), SinkFault>
    requires { (W.model out.old).failed + 1 < 2 ^ 64 }
    ensures wrote { Wrote (replaced_in store.now byte) (W.model out.old) (W.model out.new) result }
    ensures borrows { W.borrows out.new ≡ W.borrows out.old }
{
    match store.replacement(byte) {
        Some(text) => out.put(text),
        None => out.put(&[b'X', hex_digit(byte / 16), hex_digit(byte % 16)]),
    }
}

fn write_word_byte<W: ChunkSink>(store: &Store, byte: u8, out: &mut W) -> Result<(), SinkFault>
    requires { (W.model out.old).failed + 1 < 2 ^ 64 }
    ensures wrote { Wrote (word_byte (replaced_in store.now) byte)
        (W.model out.old) (W.model out.new) result }
    ensures borrows { W.borrows out.new ≡ W.borrows out.old }
{
    if byte >= 128 {
        write_replaced(store, byte, out)
    } else {
        out.put(&[byte])
    }
}

// Most Words are ASCII and need only one write.
fn write_word<W: ChunkSink>(store: &Store, bytes: &[u8], out: &mut W) -> Result<(), SinkFault>
    requires { (W.model out.old).failed + 1 < 2 ^ 64 }
    ensures wrote { Wrote (word_bytes (replaced_in store.now) bytes.now)
        (W.model out.old) (W.model out.new) result }
    ensures borrows { W.borrows out.new ≡ W.borrows out.old }
{
    if has_high_byte(bytes) {
        write_word_bytes(store, bytes, out)
    } else {
        out.put(bytes)
    }
}

#[inline(never)]
fn write_word_bytes<W: ChunkSink>(store: &Store, bytes: &[u8], out: &mut W) -> Result<(), SinkFault>
    requires { (W.model out.old).failed + 1 < 2 ^ 64 }
    ensures wrote { Wrote (word_bytes (replaced_in store.now) bytes.now)
        (W.model out.old) (W.model out.new) result }
    ensures borrows { W.borrows out.new ≡ W.borrows out.old }
{
    'bytes: for byte in bytes {
        write_word_byte(store, *byte, out)?;
    }
    Ok(())
}

fn has_high_byte(bytes: &[u8]) -> bool
    ensures { result ≡ list_any (λ b. nat_le 128 b) bytes.now }
{
    bytes.iter().any(|byte| *byte >= 128)
}

#[inline(always)]
fn write_numbered<W: ChunkSink>(
    before: &[u8],
    section: u32,
    after: &[u8],
    out: &mut W,
) -> Result<(), SinkFault>
    requires { (W.model out.old).failed + 1 < 2 ^ 64 }
    ensures wrote { Wrote (numbered_comment before.now section after.now)
        (W.model out.old) (W.model out.new) result }
    ensures borrows { W.borrows out.new ≡ W.borrows out.old }
{
    let mut digits = Buffer::new();
    write_three(out, before, digits.format(section).as_bytes(), after)
}

/// Writes the bytes of a token. A use, Defs or line mark has none here.
#[inline(always)]
pub(crate) fn write_plain<W: ChunkSink>(
    store: &Store,
    token: &Token<'_>,
    out: &mut W,
) -> Result<(), SinkFault>
    requires { (W.model out.old).failed + 1 < 2 ^ 64 }
    ensures wrote { Wrote (plain_bytes (replaced_in store.now) (token_model token.now))
        (W.model out.old) (W.model out.new) result }
    ensures borrows { W.borrows out.new ≡ W.borrows out.old }
{
    match token {
        Token::Word(bytes) => write_word(store, bytes, out),
        Token::Number(bytes)
        | Token::Literal(bytes)
        | Token::Verbatim(bytes)
        | Token::Punct(bytes) => out.put(bytes),
        Token::Blank => out.put(b" "),
        Token::Newline => out.put(b"\n"),
        Token::Head(section) => write_numbered(b"/*", *section, b":*/", out),
        Token::Tail(section) => write_numbered(b"/*:", *section, b"*/", out),
        Token::Join | Token::Defs | Token::Name(_) | Token::Mark(_) => Ok(()),
    }
}
