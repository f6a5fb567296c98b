// The names of a depfile, escaped as `make` reads them.
ghost use Rattle.std.specs.Prelude.{◌≡◌, ◌<◌, ◌+◌, ◌^◌, ◌++◌, OnOk, IfOk, replicate};
ghost use Rattle.cweb_tools.specs.Depfile.{backslashes_after, escaped, escaped_byte, name_end, needs_backslash};

use std::alloc::AllocError;

/// Where a name is in a rule.
#[derive(Clone, Copy)]
pub(crate) enum Position {
    /// A target.
    Target,
    /// A prerequisite that another one follows.
    Inner,
    /// The last prerequisite of a line.
    Last,
}

impl Position {
    /// Whether `make` reads a byte as part of a name at this position only after a backslash. In a target, `%` makes a
    /// pattern.
    fn needs_backslash(self, b: u8) -> bool
        ensures { result ≡ needs_backslash self b }
    {
        match (self, b) {
            (Position::Target, b'%') => true,
            _ => matches!(b, b' ' | b'\t' | b'#' | b':'),
        }
    }
}

/// Appends a name as `make` reads it at a position.
pub(crate) fn append_escaped(
    text: &mut Vec<u8>,
    name: &[u8],
    position: Position,
) -> Result<(), AllocError>
    ensures { OnOk result (text.new.items ≡ text.old.items ++ escaped position name.now) }
{
    let mut backslashes = 0;
    'bytes: for b in name {
        backslashes = append_byte(text, *b, position, backslashes)?;
    }
    append_end(text, position, backslashes)
}

/// Appends a byte of a name after this number of backslashes. Returns the number that the text ends in.
fn append_byte(
    text: &mut Vec<u8>,
    b: u8,
    position: Position,
    backslashes: usize,
) -> Result<usize, AllocError>
    requires { backslashes + 1 < 2 ^ 64 }
    ensures ok { OnOk result
        (text.new.items ≡ text.old.items ++ escaped_byte position backslashes b) }
    ensures counts { IfOk result (λ n. n ≡ backslashes_after backslashes b) }
{
    if position.needs_backslash(b) {
        append_backslashes(text, backslashes)?;
        text.push(b'\\')?;
    } else if b == b'$' {
        text.push(b'$')?;
    }
    text.push(b)?;
    Ok(if b == b'\\' { backslashes + 1 } else { 0 })
}

/// Appends what ends a name that ends in this number of backslashes.
fn append_end(text: &mut Vec<u8>, position: Position, backslashes: usize) -> Result<(), AllocError>
    ensures { OnOk result (text.new.items ≡ text.old.items ++ name_end position backslashes) }
{
    match position {
        Position::Last => {
            if backslashes > 0 {
                text.push(b' ')?;
            }
            Ok(())
        }
        _ => append_backslashes(text, backslashes),
    }
}

fn append_backslashes(text: &mut Vec<u8>, count: usize) -> Result<(), AllocError>
    ensures { OnOk result (text.new.items ≡ text.old.items ++ replicate count 92) }
{
    'backslashes: for _ in 0..count {
        text.push(b'\\')?;
    }
    Ok(())
}
