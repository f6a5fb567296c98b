// The code lines of a change file.
ghost use Rattle.std.specs.Prelude.{◌≡◌};
ghost use Rattle.cweb_lines.specs.Change as spec;

/// A code line: what it begins or ends.
#[derive(Clone, Copy, PartialEq, Eq)]
pub enum Code {
    /// `@x`: begins the old lines.
    OldSide,
    /// `@y`: begins the new lines.
    NewSide,
    /// `@z`: ends the entry.
    EndSide,
}

/// The code of a line that begins with `@x`, `@y` or `@z` in either case. The rest of the line is ignored.
pub fn change_code(line: &[u8]) -> Option<Code>
    ensures { result ≡ spec.change_code line.now }
{
    if line.len() < 2 || line[0] != b'@' {
        return None;
    }
    match line[1] {
        b'x' | b'X' => Some(Code::OldSide),
        b'y' | b'Y' => Some(Code::NewSide),
        b'z' | b'Z' => Some(Code::EndSide),
        _ => None,
    }
}
