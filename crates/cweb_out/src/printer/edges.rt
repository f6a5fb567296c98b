// Blanks between tokens.
ghost use Rattle.std.specs.Prelude.{◌≡◌, ◌||◌, Some};
ghost use Rattle.cweb_store.specs.surface.Tokens.{token_model};
ghost use Rattle.cweb_out.specs.surface.Printed.{edge_of};
ghost use Rattle.cweb_out.specs.inner.Edges.{edge_is_apart, edge_is_glue, edge_is_operator, is_apart};

use cweb_store::{Edge, Token, punctuator_edge};

// Whether a blank comes between two edges: a row of sixteen for each left edge.
const APART: [bool; 256] = [
    true, true, true, false, false, false, false, false, false, false, false, false, false, false,
    false, false, true, true, true, false, false, false, false, false, false, false, true, true,
    true, false, false, false, true, true, false, false, false, false, false, false, false, false,
    false, false, false, false, false, false, false, false, false, false, false, false, false,
    false, false, false, false, false, false, false, false, false, false, false, false, false,
    false, false, false, false, false, false, false, false, false, false, false, false, false,
    false, false, false, false, false, false, true, true, true, true, true, true, false, false,
    false, false, true, false, false, false, false, false, true, true, true, true, true, true,
    false, false, false, false, false, false, false, false, false, false, false, false, false,
    false, false, false, false, false, false, false, false, false, false, false, false, false,
    true, true, true, true, true, true, false, false, false, false, true, false, false, false,
    false, false, true, true, true, true, true, true, false, false, false, false, false, false,
    false, false, false, false, false, false, false, false, false, false, false, false, false,
    false, false, false, false, false, false, false, true, true, true, true, true, true, false,
    false, false, false, true, false, false, false, false, false, true, true, true, true, true,
    true, false, false, false, false, false, false, false, false, false, false, false, false,
    false, false, false, false, false, false, false, false, false, false, false, false, false,
    false, false, false, false, false, false, false, false, false, false, false, false, false,
    false, false, false, false, false, false, false, false, false, false, false, false, false,
];

/// Whether a blank comes between tokens with these edges.
#[inline(always)]
pub(crate) fn edge_is_apart(left: Edge, right: Edge) -> bool
    ensures { result ≡ edge_is_apart left right }
{
    APART[16 * left as usize + right as usize]
}

/// The edge of a token.
#[inline(always)]
pub(crate) fn edge_of(token: &Token<'_>) -> Edge
    ensures { result ≡ edge_of (Some (token_model token.now)) }
{
    match token {
        Token::Word(_) => Edge::Word,
        Token::Number(_) => Edge::Number,
        Token::Literal(_) => Edge::Literal,
        Token::Verbatim(_) | Token::Join => Edge::Glue,
        Token::Punct(bytes) => punctuator_edge(bytes),
        Token::Newline | Token::Mark(_) | Token::Defs => Edge::LineEnd,
        _ => Edge::Blank,
    }
}

/// Whether a blank comes between a token with this edge and the next token.
#[inline(always)]
pub(crate) fn is_apart(left: Edge, token: &Token<'_>) -> bool
    ensures { result ≡ is_apart left (token_model token.now) }
{
    match token {
        Token::Head(_) | Token::Tail(_) => is_before_comment(left),
        _ => edge_is_apart(left, edge_of(token)),
    }
}

// Whether a blank comes before a section comment: after an operator, a join or verbatim bytes.
fn is_before_comment(left: Edge) -> bool
    ensures { result ≡ (edge_is_operator left || edge_is_glue left) }
{
    match left {
        Edge::Glue => true,
        _ => edge_is_apart(left, Edge::OperatorPlain),
    }
}
