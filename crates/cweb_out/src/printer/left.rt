// A printer's state after the tokens so far.
ghost use Rattle.std.specs.Prelude.{◌≡◌, ◌&&◌};
ghost use Rattle.cweb_store.specs.surface.Tokens.{token_model};
ghost use Rattle.cweb_out.specs.Printing.{stays_joined};
ghost use Rattle.cweb_store.specs.Parts.{is_layout};
ghost use Rattle.cweb_out.specs.surface.Printed.{at_start, is_dropped, left_after_token};

use crate::printer::edges::edge_of;
use cweb_store::{Edge, Token};

/// The edge of the last printed token, and whether a join is open: only layout and section comments followed it.
#[derive(Clone, Copy)]
pub(crate) struct Left {
    pub last: Edge,
    pub joined: bool,
}

impl Left {
    /// The state at the start of a file.
    pub fn start() -> Left
        ensures { result ≡ at_start }
    {
        Left {
            last: Edge::LineEnd,
            joined: false,
        }
    }

    /// Whether the token is layout after a join, which isn't printed.
    pub fn drops(self, token: &Token<'_>) -> bool
        ensures { result ≡ is_dropped self (token_model token.now) }
    {
        self.joined && is_layout(token)
    }

    /// The state after a token.
    pub fn after(self, token: &Token<'_>) -> Left
        ensures { result ≡ left_after_token self (token_model token.now) }
    {
        if self.drops(token) {
            return self;
        }
        Left {
            last: edge_of(token),
            joined: stays_joined(self.joined, token),
        }
    }
}

fn is_layout(token: &Token<'_>) -> bool
    ensures { result ≡ is_layout (token_model token.now) }
{
    match token {
        Token::Blank | Token::Newline | Token::Mark(_) => true,
        _ => false,
    }
}

fn stays_joined(joined: bool, token: &Token<'_>) -> bool
    ensures { result ≡ stays_joined joined (token_model token.now) }
{
    match token {
        Token::Join => true,
        Token::Blank | Token::Newline | Token::Mark(_) | Token::Head(_) | Token::Tail(_) => joined,
        _ => false,
    }
}
