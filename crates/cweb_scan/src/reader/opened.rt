// How an open item ends in the rest of a line.
ghost use Rattle.std.specs.Prelude.{◌≡◌};
ghost use Rattle.cweb_rules.specs.Matches as rules;
ghost use Rattle.cweb_rules.specs.inner.LineItems.{is_unclosed, IsSizeIn};

use cweb_rules::End;
use cweb_rules::items::opener_len;

/// Whether an item continues after its line.
pub fn is_unclosed(how: End) -> bool
    ensures { result ≡ is_unclosed how }
{
    matches!(how, End::Open)
}

/// The number of bytes of the part opener after a name. Only a name that ended at its closer has one.
pub fn opener_after(how: End, rest: &[u8]) -> usize
    ensures { IsSizeIn (rules.opener_after how) rest.now result }
{
    match how {
        End::Closed => opener_len(rest),
        _ => 0,
    }
}
