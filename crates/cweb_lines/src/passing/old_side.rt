// Old sides that are in the buffers. They are looked at as a whole, and nothing is taken.
ghost use Rattle.std.specs.Prelude.{◌≡◌, ◌+◌, ℕ, List, IfSome, None};
ghost use Rattle.cweb_lines.specs.Change as spec;
ghost use Rattle.cweb_lines.specs.inner.PassingChanges.{IsOldSide, IsPartOfOldSide, last_bytes};

use crate::change::code::{Code, change_code};
use crate::open_source::OpenSource;
use crate::passing::next::{LinesAhead, last_ahead, line_ahead, matches_in, one_more_ahead};

/// The part of an old side that was looked at.
#[derive(Clone, Copy)]
pub struct OldSideAhead {
    /// The lines of the web. They equal the old lines so far.
    pub web: LinesAhead,
    /// The old lines after the first, and the next line of the change file.
    pub side: LinesAhead,
}

// The first old line alone, if the next line of the web equals it.
fn first_old_line<R: Drop>(
    web: &Option<OpenSource<R>>,
    change: &Option<OpenSource<R>>,
    first: &[u8],
) -> Option<OldSideAhead>
    ensures { IfSome result (λ ahead. IsPartOfOldSide web.now change.now first.now ahead) }
{
    let line = line_ahead(web)?;
    if !matches_in(web) || last_ahead(web, line) != first {
        return None;
    }
    Some(OldSideAhead {
        web: line,
        side: line_ahead(change)?,
    })
}

// One more old line, if the next line of the web equals it.
fn one_more_old<R: Drop>(
    web: &Option<OpenSource<R>>,
    change: &Option<OpenSource<R>>,
    ahead: OldSideAhead,
) -> Option<OldSideAhead>
    requires part { (first : List ℕ) × IsPartOfOldSide web.now change.now first ahead }
    requires old { spec.change_code (last_bytes change.now ahead.side) ≡ None }
    ensures part { IfSome result (λ more. (first : List ℕ) →
        IsPartOfOldSide web.now change.now first ahead →
        IsPartOfOldSide web.now change.now first more) }
    ensures count { IfSome result (λ more. more.side.all.lines ≡ ahead.side.all.lines + 1) }
{
    let more = one_more_ahead(web, ahead.web)?;
    if last_ahead(web, more) != last_ahead(change, ahead.side) {
        return None;
    }
    let side = one_more_ahead(change, ahead.side)?;
    Some(OldSideAhead { web: more, side })
}

/// The old side up to `@y` of the entry with this first old line, if the next lines of the web equal it. `None` is always
/// allowed: the caller falls back to `next_line`. If that one takes these lines, none of them is looked at again.
pub fn old_side_ahead<R: Drop>(
    web: &Option<OpenSource<R>>,
    change: &Option<OpenSource<R>>,
    first: &[u8],
) -> Option<OldSideAhead>
    ensures { IfSome result (λ ahead. IsOldSide web.now change.now first.now ahead) }
{
    let mut ahead = first_old_line(web, change, first)?;
    'lines: loop {
        match change_code(last_ahead(change, ahead.side)) {
            None => {}
            Some(Code::NewSide) => return Some(ahead),
            Some(_) => return None,
        }
        ahead = one_more_old(web, change, ahead)?;
    }
}
