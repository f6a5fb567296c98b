// Names that a file can have.
ghost use Rattle.std.specs.Prelude.{◌≡◌, not};
ghost use Rattle.std.specs.List.{after_last, list_all};
ghost use Rattle.cweb_out.specs.Outputs.{is_control, is_slash, names_no_file};
ghost use Rattle.cweb_out.specs.inner.Planning.{is_good_path};

/// Whether a name has no control byte, and its last path part names a file: it isn't empty, `.` or `..`.
pub(crate) fn is_good_path(name: &[u8]) -> bool
    ensures { result ≡ is_good_path name.now }
{
    has_no_control(name) && !names_no_file(last_part(name))
}

fn has_no_control(name: &[u8]) -> bool
    ensures { result ≡ list_all (λ b. not (is_control b)) name.now }
{
    name.iter().all(|byte| *byte >= 32 && *byte != 127)
}

// The bytes after the last slash.
fn last_part(name: &[u8]) -> &[u8]
    ensures { result.now ≡ after_last is_slash name.now }
{
    let mut start = 0;
    'bytes: for (i, byte) in name.iter().enumerate() {
        if *byte == b'/' {
            start = i + 1;
        }
    }
    &name[start..]
}

fn names_no_file(part: &[u8]) -> bool
    ensures { result ≡ names_no_file part.now }
{
    part == b"".as_slice() || part == b".".as_slice() || part == b"..".as_slice()
}
