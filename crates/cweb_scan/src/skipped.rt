// The prefix before the next `@`.
ghost use Rattle.std.specs.List.{prefix_len};
ghost use Rattle.cweb_rules.specs.inner.LineItems.{IsSizeIn};
ghost use Rattle.cweb_scan.specs.inner.MatchSteps.{is_skipped};

use cweb_rules::plains::len_before;

/// The number of bytes before the first `@`, or all.
pub fn skipped_len(text: &[u8]) -> usize
    ensures { IsSizeIn (prefix_len is_skipped) text.now result }
{
    len_before(b'@', text)
}
