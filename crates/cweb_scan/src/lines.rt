// Consecutive lines of a file.
ghost use Rattle.std.specs.Prelude.{◌≡◌};
ghost use Rattle.cweb_scan.specs.State as spec;

use cweb_files::Place;

/// Whether `next` is the line after `here` in the same file.
pub fn is_next_line(here: Place, next: Place) -> bool
    ensures { result ≡ spec.is_next_line here next }
{
    here.file.0 == next.file.0 && here.line < next.line && next.line - here.line == 1
}
