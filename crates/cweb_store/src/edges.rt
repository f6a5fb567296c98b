// The edge of a string: what decides whether a blank comes between it and its neighbours.
ghost use Rattle.std.specs.Prelude.{◌≡◌};
ghost use Rattle.std.specs.List.{list_any};
ghost use Rattle.cweb_rules.specs.Edges.{first_is, is_operator};
ghost use Rattle.cweb_store.specs.surface.Tokens.{is_numeric, edge_by_last, punctuator_edge, punctuator_edge_by};
ghost use Rattle.cweb_store.specs.inner.StringLists.{is_high, string_edge};

/// What decides whether a blank comes between a token that is printed as its string and its neighbours.
///
/// The edge of a punctuator is the class of its first byte and the class of its last byte. The first byte is numeric if
/// it could continue a number, an operator byte, or plain. The last byte is a point, another operator byte, or plain.
#[derive(Clone, Copy)]
pub enum Edge {
    /// A word.
    Word,
    /// A number.
    Number,
    /// A string or character literal.
    Literal,
    /// A verbatim string.
    Glue,
    /// A punctuator: the classes of its first and its last byte. So are the next eight.
    PlainPlain,
    PlainOperator,
    PlainPoint,
    OperatorPlain,
    OperatorOperator,
    OperatorPoint,
    NumericPlain,
    NumericOperator,
    NumericPoint,
    /// A blank.
    Blank,
    /// A line end.
    LineEnd,
    /// The string has a byte that is not ASCII, or its edge is not stored.
    Unknown,
}

// one edge is stored for each string
const _: () = prove!(size_of::<Edge>() == 1);

/// The bytes of a token, with its edge.
#[derive(Clone, Copy)]
pub struct TokenBytes<'a> {
    pub string: &'a [u8],
    pub edge: Edge,
}

/// The edge of a string, taken as a punctuator. It is unknown where a byte is not ASCII.
pub fn string_edge(string: &[u8]) -> Edge
    ensures { result ≡ string_edge string.now }
{
    if has_high_byte(string) {
        return Edge::Unknown;
    }
    punctuator_edge(string)
}

/// Whether a string has a byte that is not ASCII.
#[inline(never)]
pub fn has_high_byte(string: &[u8]) -> bool
    ensures { result ≡ list_any is_high string.now }
{
    string.iter().any(|byte| *byte >= 128)
}

/// The edge of a punctuator.
#[inline(never)]
pub fn punctuator_edge(string: &[u8]) -> Edge
    ensures { result ≡ punctuator_edge string.now }
{
    let Some(last) = string.last() else {
        return Edge::PlainPlain;
    };
    punctuator_edge_by(
        first_is_numeric(string),
        begins_with_operator(string),
        *last == b'.',
        is_operator(*last),
    )
}

// The edge of a punctuator by two tests of its first byte and two of its last byte.
fn punctuator_edge_by(is_numeric: bool, is_operator: bool, ends_in_point: bool, ends: bool) -> Edge
    ensures { result ≡ punctuator_edge_by is_numeric is_operator ends_in_point ends }
{
    if is_numeric {
        edge_by_last(
            Edge::NumericPlain,
            Edge::NumericOperator,
            Edge::NumericPoint,
            ends_in_point,
            ends,
        )
    } else if is_operator {
        edge_by_last(
            Edge::OperatorPlain,
            Edge::OperatorOperator,
            Edge::OperatorPoint,
            ends_in_point,
            ends,
        )
    } else {
        edge_by_last(
            Edge::PlainPlain,
            Edge::PlainOperator,
            Edge::PlainPoint,
            ends_in_point,
            ends,
        )
    }
}

// One of three edges, by the last byte.
fn edge_by_last(plain: Edge, operator: Edge, point: Edge, is_point: bool, is_operator: bool) -> Edge
    ensures { result ≡ edge_by_last plain operator point is_point is_operator }
{
    if is_point {
        point
    } else if is_operator {
        operator
    } else {
        plain
    }
}

fn first_is_numeric(string: &[u8]) -> bool
    ensures { result ≡ first_is is_numeric string.now }
{
    match string {
        [] => false,
        [first, ..] => matches!(*first, b'.' | b'+' | b'-'),
    }
}

fn begins_with_operator(string: &[u8]) -> bool
    ensures { result ≡ first_is is_operator string.now }
{
    match string {
        [] => false,
        [first, ..] => is_operator(*first),
    }
}

// Whether a byte may be part of a longer operator.
fn is_operator(byte: u8) -> bool
    ensures { result ≡ is_operator byte }
{
    matches!(byte, b'+' | b'-' | b'*' | b'/' | b'%' | b'&' | b'|' | b'^')
        || matches!(byte, b'!' | b'=' | b'<' | b'>' | b'.' | b':' | b'#' | b'?')
}
