// The spelling of section names (CWEB manual, "Section names").
ghost use Rattle.std.specs.Prelude.{◌≡◌, IfOk};
ghost use Rattle.cweb_rules.specs.Bytes as bytes;
ghost use Rattle.cweb_store.specs.Names.{is_abbreviation};
ghost use Rattle.cweb_rules.specs.inner.LineItems.{IsSizeIn};
ghost use Rattle.cweb_store.specs.inner.Squeezing as spec;
ghost use Rattle.cweb_store.specs.inner.Squeezing.{is_in_word};
ghost use Rattle.std.specs.List.{prefix_len};
ghost use Rattle.cweb_store.specs.Names as base;

use std::alloc::{AllocError, Global};

fn is_white(byte: u8) -> bool
    ensures { result ≡ bytes.is_white byte }
{
    matches!(byte, b' ' | b'\t' | b'\r' | 11 | 12 | b'\n')
}

/// The spelling of a name: each span of white space becomes one space, and it is trimmed.
pub fn squeezed(alloc: Global, text: &[u8]) -> Result<Vec<u8>, AllocError>
    ensures { IfOk result (λ name. name.items ≡ base.squeezed text.now) }
{
    let mut name = Vec::with_capacity(alloc, text.len())?;
    let mut gap = false;
    for byte in text {
        if is_white(*byte) {
            gap = !name.is_empty();
        } else {
            if gap {
                name.push(b' ')?;
            }
            name.push(*byte)?;
            gap = false;
        }
    }
    Ok(name)
}

// The number of bytes before white space.
#[inline(always)]
fn word_len(text: &[u8]) -> usize
    ensures { IsSizeIn (prefix_len is_in_word) text.now result }
{
    for (i, byte) in text.iter().enumerate() {
        if is_white(*byte) {
            return i;
        }
    }
    text.len()
}

/// Whether a name isn't empty and `squeezed` would leave it unchanged: it has words with single spaces between them.
pub fn is_squeezed(text: &[u8]) -> bool
    ensures { result ≡ spec.is_squeezed text.now }
{
    let mut rest = text;
    'words: loop {
        let word = word_len(rest);
        if word == 0 {
            return false;
        }
        let Some((next, after)) = rest.split_at(word).1.split_first() else {
            return true;
        };
        if *next != b' ' {
            return false;
        }
        rest = after;
    }
}

/// Whether a name is an abbreviation: it is longer than three bytes and ends in `...`.
pub fn is_prefix(name: &[u8]) -> bool
    ensures { result ≡ is_abbreviation name.now }
{
    name.len() > 3 && name.ends_with(b"...")
}
