// Copies strings into a buffer, after its used bytes.
ghost use Rattle.std.specs.Prelude.{◌≡◌, ◌≤◌, ◌<◌, ◌+◌, ◌++◌, ◌∷◌, [], length, take, nat_lt, is_some, IfSome};
ghost use Rattle.cweb_out.specs.inner.BufferedPrinting.{blank_where};
ghost use Rattle.cweb_out.specs.declared.buffer.TheConstants.{ROOM};

use crate::buffer::ROOM;

/// Writes an optional blank and a string after the first `used` bytes, if both fit. Returns the new `used`.
#[inline(always)]
pub fn put_if_fits(bytes: &mut [u8], used: usize, is_apart: bool, text: &[u8]) -> Option<usize>
    requires size { length bytes.old ≡ ROOM }
    requires within { used ≤ ROOM }
    ensures size { length bytes.new ≡ ROOM }
    ensures within { IfSome result (λ end. (used ≤ end) × (end ≤ ROOM)) }
    ensures kept { IfSome result (λ end. take end bytes.new
        ≡ take used bytes.old ++ (blank_where is_apart ++ text.now)) }
    ensures prefix { take used bytes.new ≡ take used bytes.old }
    ensures room { is_some result ≡ nat_lt (used + length text.now) ROOM }
{
    if used + text.len() >= ROOM {
        return None;
    }
    let begin = put_blank(bytes, used, is_apart);
    Some(put_slice(bytes, begin, text))
}

#[inline(always)]
fn put_blank(bytes: &mut [u8], used: usize, is_wanted: bool) -> usize
    requires { used < length bytes.old }
    ensures size { length bytes.new ≡ length bytes.old }
    ensures within { (used ≤ result) × (result ≤ used + 1) }
    ensures put { take result bytes.new ≡ take used bytes.old ++ blank_where is_wanted }
{
    bytes[used] = b' ';
    if is_wanted { used + 1 } else { used }
}

/// Writes a string that fits. Most have one byte, which is tested first. Short ones are copied without a call.
#[inline(always)]
pub(crate) fn put_slice(bytes: &mut [u8], used: usize, text: &[u8]) -> usize
    requires { used + length text.now ≤ length bytes.old }
    ensures size { length bytes.new ≡ length bytes.old }
    ensures end { result ≡ used + length text.now }
    ensures put { take result bytes.new ≡ take used bytes.old ++ text.now }
{
    match text {
        [byte] => put_byte(bytes, used, *byte),
        _ if text.len() > 4 => match text.len() {
            5..=8 => put_ends::<4>(bytes, used, text),
            9..=16 => put_ends::<8>(bytes, used, text),
            _ => put_any(bytes, used, text),
        },
        [] => used,
        _ => put_ends::<2>(bytes, used, text),
    }
}

#[inline(always)]
fn put_byte(bytes: &mut [u8], used: usize, byte: u8) -> usize
    requires { used < length bytes.old }
    ensures size { length bytes.new ≡ length bytes.old }
    ensures end { result ≡ used + 1 }
    ensures put { take result bytes.new ≡ take used bytes.old ++ byte ∷ [] }
{
    bytes[used] = byte;
    used + 1
}

// Copies a string of N to 2N bytes in two overlapping moves: its first N bytes and its last N. Both are read before
// either is written, so the lists need not be distinct.
#[inline(always)]
fn put_ends<const N: usize>(bytes: &mut [u8], used: usize, text: &[u8]) -> usize
    requires room { used + length text.now ≤ length bytes.old }
    requires least { N ≤ length text.now }
    requires most { length text.now ≤ N + N }
    ensures size { length bytes.new ≡ length bytes.old }
    ensures end { result ≡ used + length text.now }
    ensures put { take result bytes.new ≡ take used bytes.old ++ text.now }
{
    let Some(first) = text.first_chunk::<N>() else {
        unreachable!();
    };
    let Some(last) = text.last_chunk::<N>() else {
        unreachable!();
    };
    let (first, last) = (*first, *last);
    put_chunk(bytes, used, first);
    put_chunk(bytes, used + (text.len() - N), last)
}

#[inline(always)]
fn put_chunk<const N: usize>(bytes: &mut [u8], used: usize, chunk: [u8; N]) -> usize
    requires { used + N ≤ length bytes.old }
    ensures size { length bytes.new ≡ length bytes.old }
    ensures end { result ≡ used + N }
    ensures put { take result bytes.new ≡ take used bytes.old ++ chunk.entry }
{
    let end = used + N;
    replace_all(&mut bytes[used..end], chunk);
    end
}

// Overwrites N bytes.
#[inline(always)]
fn replace_all<const N: usize>(bytes: &mut [u8], chunk: [u8; N])
    requires { length bytes.old ≡ N }
    ensures { bytes.new ≡ chunk.entry }
{
    let Some(place) = bytes.as_mut_array::<N>() else {
        unreachable!();
    };
    *place = chunk;
}

// Writes a string of any length.
#[cold]
#[inline(never)]
fn put_any(bytes: &mut [u8], used: usize, text: &[u8]) -> usize
    requires { used + length text.now ≤ length bytes.old }
    ensures size { length bytes.new ≡ length bytes.old }
    ensures end { result ≡ used + length text.now }
    ensures put { take result bytes.new ≡ take used bytes.old ++ text.now }
{
    let end = used + text.len();
    bytes[used..end].copy_from_slice(text);
    end
}
