// Finds the end of a part without its trailing layout.
ghost use Rattle.std.specs.Prelude.{◌≡◌, ◌≤◌, ℕ, filter, length, take, drop};
ghost use Rattle.cweb_store.specs.Parts.{at_close, is_blank, without_blank, without_last_after, without_layout};
ghost use Rattle.cweb_store.specs.inner.PartRanges.{open_in, CutsLayout, is_trailing, has_string};
ghost use Rattle.cweb_store.specs.surface.Tokens.{token_model};

use crate::parts::Open;
use crate::tokens::Token;
use crate::tokens::list::TokenList;

/// Which trailing tokens are dropped.
#[derive(Clone, Copy)]
pub enum Trailing {
    /// Blanks, Newlines and Marks.
    Layout,
    /// Newlines.
    Newlines,
}

/// The end of an open part without its trailing layout. A macro keeps two tokens: the second may be a needed Blank.
pub fn end_before_layout(tokens: &TokenList, current: Open) -> usize
    requires { current.first ≤ length tokens.now.tokens }
    ensures part { open_in (take result tokens.now.tokens) current
        ≡ without_layout (open_in tokens.now.tokens current) }
    ensures cut { CutsLayout tokens.now.tokens current.first result }
{
    let kept = if current.kind.is_macro() { 2 } else { 0 };
    end_before(tokens, current.first as usize + kept, Trailing::Layout)
}

/// The end of an open part when it is closed.
pub fn end_at_close(tokens: &TokenList, current: Open) -> usize
    requires { current.first ≤ length tokens.now.tokens }
    ensures part { open_in (take result tokens.now.tokens) current
        ≡ at_close (open_in tokens.now.tokens current) }
    ensures cut { CutsLayout tokens.now.tokens current.first result }
{
    if !current.kind.is_macro() {
        return tokens.len();
    }
    let first = current.first as usize;
    let end = end_before(tokens, first, Trailing::Newlines);
    end_before_blank(tokens, first, end)
}

// The end of the tokens without the trailing ones that are dropped. Tokens before `from` stay.
fn end_before(tokens: &TokenList, from: usize, trailing: Trailing) -> usize
    ensures kept { take result tokens.now.tokens
        ≡ without_last_after from (is_trailing trailing) tokens.now.tokens }
    ensures strings { filter has_string (take result tokens.now.tokens)
        ≡ filter has_string tokens.now.tokens }
    ensures begins { (n : ℕ) → n ≤ from → n ≤ length tokens.now.tokens → n ≤ result }
    ensures within { result ≤ length tokens.now.tokens }
{
    let mut end = tokens.len();
    while from < end && is_trailing(tokens.token(end - 1), trailing) {
        end -= 1;
    }
    end
}

fn is_trailing(token: Token<'_>, trailing: Trailing) -> bool
    ensures { result ≡ is_trailing trailing (token_model token.entry) }
{
    match (trailing, token) {
        (_, Token::Newline) => true,
        (Trailing::Layout, Token::Blank) => true,
        (Trailing::Layout, Token::Mark(_)) => true,
        _ => false,
    }
}

// The end of the tokens without a trailing Blank. Tokens before `from` stay.
fn end_before_blank(tokens: &TokenList, from: usize, end: usize) -> usize
    requires begins { from ≤ end }
    requires within { end ≤ length tokens.now.tokens }
    ensures kept { drop from (take result tokens.now.tokens)
        ≡ without_blank (drop from (take end tokens.now.tokens)) }
    ensures strings { filter has_string (take result tokens.now.tokens)
        ≡ filter has_string (take end tokens.now.tokens) }
    ensures begins { from ≤ result }
    ensures within { result ≤ end }
{
    if from < end && is_blank(tokens.token(end - 1)) {
        return end - 1;
    }
    end
}

fn is_blank(token: Token<'_>) -> bool
    ensures { result ≡ is_blank (token_model token.entry) }
{
    match token {
        Token::Blank => true,
        _ => false,
    }
}
