// Fast path for literals that end in their line.
ghost use Rattle.std.specs.Prelude.{◌≡◌, ◌≤◌, ◌<◌, [], ◌∷◌, IfSome, length, false};
ghost use Rattle.cweb_rules.specs.Bytes as bytes;
ghost use Rattle.cweb_rules.specs.Items.{look_in_literal, reach};
ghost use Rattle.cweb_rules.specs.declared.end.End.TheVariants as how;
ghost use Rattle.cweb_rules.specs.declared.look.Look.TheVariants as look;
ghost use Rattle.cweb_rules.specs.inner.LineItems.{reached};

use crate::bytes::begins;
use crate::plains::plain_in_literal;

// The size of an escape sequence that is next, else 0. One with an `@` is left to the slow path.
#[inline(always)]
fn escape_len(quote: u8, text: &[u8]) -> usize
    requires { bytes.begins (quote ∷ []) text.now ≡ false }
    ensures unit { 0 < result → look_in_literal quote text.now ≡ look.Goes result }
    ensures within { result ≤ length text.now }
{
    match text {
        [b'\\', second, ..] if *second != b'@' => 2,
        _ => 0,
    }
}

/// The length before the closing quote, if that is in the line and no `@` before it. `text` follows the opening quote.
pub fn quoted_len(quote: u8, text: &[u8]) -> Option<usize>
    ensures ends { IfSome result (λ n. reached (reach (look_in_literal quote) how.Open text.now)
        ≡ record { size = n; close = 1; how = how.Closed }) }
    ensures within { IfSome result (λ n. n < length text.now) }
{
    let mut rest = text;
    'units: loop {
        rest = rest.split_at(plain_in_literal(quote, rest)).1;
        if begins(&[quote], rest) {
            return Some(text.len() - rest.len());
        }
        let size = escape_len(quote, rest);
        if size == 0 {
            return None;
        }
        rest = rest.split_at(size).1;
    }
}
