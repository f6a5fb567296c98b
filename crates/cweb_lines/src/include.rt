// Include lines, and the names in them.
ghost use Rattle.std.specs.Prelude.{◌≡◌, ◌≤◌, ◌+◌, length};
ghost use Rattle.cweb_lines.specs.Include as spec;
ghost use Rattle.cweb_lines.specs.inner.Finding.{until_name_end};

/// Whether a line begins with `@i` or `@I` (CWEB manual, `@i`). No blank is needed after it.
pub fn is_include_line(line: &[u8]) -> bool
    ensures { result ≡ spec.is_include_line line.now }
{
    line.len() >= 2 && line[0] == b'@' && (line[1] == b'i' || line[1] == b'I')
}

fn is_space(b: u8) -> bool
    ensures { result ≡ spec.is_space b }
{
    b == b' ' || b == b'\t'
}

fn ends_name(quoted: bool, b: u8) -> bool
    ensures { result ≡ spec.ends_name quoted b }
{
    if quoted {
        b == b'"'
    } else {
        is_space(b) || b == b'"'
    }
}

fn until_name_end(quoted: bool, bytes: &[u8]) -> &[u8]
    ensures { result.now ≡ until_name_end quoted bytes.now }
{
    for i in 0..bytes.len() {
        if ends_name(quoted, bytes[i]) {
            return &bytes[..i];
        }
    }
    bytes
}

fn name_after_spaces(bytes: &[u8]) -> &[u8]
    ensures { result.now ≡ spec.name_after_spaces bytes.now }
{
    for i in 0..bytes.len() {
        if bytes[i] == b'"' {
            return until_name_end(true, &bytes[i + 1..]);
        }
        if !is_space(bytes[i]) {
            return until_name_end(false, &bytes[i..]);
        }
    }
    &[]
}

/// The file name in an include line: in double quotes, or up to a space, tab or quote. It is empty if there is none.
pub fn include_name(line: &[u8]) -> &[u8]
    requires { 2 ≤ length line.now }
    ensures { result.now ≡ spec.include_name line.now }
{
    name_after_spaces(&line[2..])
}
