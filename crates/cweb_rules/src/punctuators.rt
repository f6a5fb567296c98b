// Punctuators of C text.
ghost use Rattle.std.specs.Prelude.{◌≡◌, ◌∷◌, []};
ghost use Rattle.cweb_rules.specs.Bytes.{listed, longest};
ghost use Rattle.cweb_rules.specs.Edges.{is_one_of};
ghost use Rattle.cweb_rules.specs.inner.Rules.{begins_pair, begins_triple, is_listed, second_is, seconds};

// Whether a byte is the second one of a listed punctuator. Most punctuators in a program have another byte after them.
fn may_be_second(byte: u8) -> bool
    ensures { result ≡ is_one_of seconds byte }
{
    matches!(
        byte,
        b'.' | b'<' | b'>' | b'=' | b'-' | b'+' | b'&' | b'|' | b'*' | b'#' | b':'
    )
}

fn may_be_listed(text: &[u8]) -> bool
    ensures { result ≡ second_is (is_one_of seconds) text.now }
{
    match text {
        [_, second, ..] => may_be_second(*second),
        _ => false,
    }
}

/// The length of the longest listed punctuator that is next, else 1.
#[inline(always)]
pub fn punctuator_len(text: &[u8]) -> usize
    ensures { result ≡ longest listed text.now }
{
    if !may_be_listed(text) {
        return 1;
    }
    listed_len(text)
}

// Slow path. It isn't inlined, because few punctuators come to it.
#[inline(never)]
fn listed_len(text: &[u8]) -> usize
    ensures { result ≡ longest listed text.now }
{
    if begins_triple(text) {
        3
    } else if begins_pair(text) {
        2
    } else {
        1
    }
}

fn begins_triple(text: &[u8]) -> bool
    ensures { result ≡ begins_triple text.now }
{
    match text {
        [first, second, third, ..] => is_triple(*first, *second, *third),
        _ => false,
    }
}

fn begins_pair(text: &[u8]) -> bool
    ensures { result ≡ begins_pair text.now }
{
    match text {
        [first, second, ..] => is_pair(*first, *second),
        _ => false,
    }
}

// Whether three bytes are a listed punctuator.
fn is_triple(first: u8, second: u8, third: u8) -> bool
    ensures { result ≡ is_listed (first ∷ second ∷ third ∷ []) }
{
    match (first, second, third) {
        (b'.', b'.', b'.') | (b'<', b'<', b'=') | (b'>', b'>', b'=') | (b'-', b'>', b'*') => true,
        _ => false,
    }
}

// Whether two bytes are a listed punctuator.
fn is_pair(first: u8, second: u8) -> bool
    ensures { result ≡ is_listed (first ∷ second ∷ []) }
{
    match second {
        b'=' => is_before_equals(first),
        b'>' => first == b'>' || first == b'-',
        b'*' => first == b'.',
        b'<' | b'+' | b'-' | b'&' | b'|' | b'#' | b':' => first == second,
        _ => false,
    }
}

// Whether a byte before `=` makes a listed punctuator with it.
fn is_before_equals(byte: u8) -> bool
    ensures { result ≡ is_listed (byte ∷ 61 ∷ []) }
{
    matches!(
        byte,
        b'<' | b'>' | b'=' | b'!' | b'*' | b'/' | b'%' | b'+' | b'-' | b'&' | b'^' | b'|'
    )
}
