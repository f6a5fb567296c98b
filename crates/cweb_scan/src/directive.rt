// Tracks the open directive of a part.
ghost use Rattle.std.specs.Prelude.{◌≡◌, Some, codes};
ghost use Rattle.cweb_store.specs.surface.Tokens.{token_model};
ghost use Rattle.cweb_scan.specs.State.{is_punct};
ghost use Rattle.cweb_scan.specs.inner.ScanParts.{after_token, new_directive, is_include_stage};
ghost use Rattle.cweb_scan.specs.inner.ScanParts.{is_include_word};
ghost use Rattle.cweb_store.specs.Parts.{is_blank};
ghost use Rattle.cweb_scan.specs.inner.ScanParts as spec;

use cweb_store::Token;

/// The last token, as far as directives depend on it.
#[derive(Clone, Copy)]
pub enum Last {
    LineEnd,
    Backslash,
    Blank,
    Other,
}

/// The progress of a directive: none is open; only blanks so far; `include` and blanks; more.
#[derive(Clone, Copy)]
pub enum Stage {
    Outside,
    Bare,
    Include,
    Further,
}

/// The state of the open directive: its stage, and the last token of the part.
#[derive(Clone, Copy)]
pub struct Directive {
    pub stage: Stage,
    pub last: Last,
}

#[inline(always)]
fn last_kind(token: Token<'_>) -> Last
    ensures { result ≡ spec.last_kind (token_model token.entry) }
{
    match token {
        Token::Newline | Token::Mark(_) => Last::LineEnd,
        Token::Blank => Last::Blank,
        Token::Punct(bytes) => {
            if bytes == b"\\".as_slice() {
                Last::Backslash
            } else {
                Last::Other
            }
        }
        _ => Last::Other,
    }
}

// Whether a directive continues after this line end.
#[inline(always)]
fn continues_line(last: Last, token: Token<'_>) -> bool
    ensures { result ≡ spec.continues_line last (token_model token.entry) }
{
    matches!(token, Token::Newline) && matches!(last, Last::Backslash)
}

fn is_hash(token: Token<'_>) -> bool
    ensures { result ≡ is_punct (codes "#") (Some (token_model token.entry)) }
{
    match token {
        Token::Punct(bytes) => bytes == b"#".as_slice(),
        _ => false,
    }
}

fn is_include_word(token: Token<'_>) -> bool
    ensures { result ≡ is_include_word (token_model token.entry) }
{
    match token {
        Token::Word(bytes) => bytes == b"include".as_slice(),
        _ => false,
    }
}

fn is_blank(token: Token<'_>) -> bool
    ensures { result ≡ is_blank (token_model token.entry) }
{
    matches!(token, Token::Blank)
}

fn next_open_stage(stage: Stage, token: Token<'_>) -> Stage
    ensures { result ≡ spec.next_open_stage stage (token_model token.entry) }
{
    if is_blank(token) {
        return stage;
    }
    if is_include_word(token) && matches!(stage, Stage::Bare) {
        return Stage::Include;
    }
    Stage::Further
}

impl Directive {
    /// The state before any token: no directive is open.
    pub fn new() -> Directive
        ensures { result ≡ new_directive }
    {
        Directive {
            stage: Stage::Outside,
            last: Last::Other,
        }
    }

    #[inline(always)]
    fn next_stage(self, token: Token<'_>) -> Stage
        ensures { result ≡ spec.next_stage self (token_model token.entry) }
    {
        if matches!(self.stage, Stage::Outside) {
            if is_hash(token) && matches!(self.last, Last::LineEnd) {
                return Stage::Bare;
            }
            return Stage::Outside;
        }
        if matches!(last_kind(token), Last::LineEnd) && !continues_line(self.last, token) {
            return Stage::Outside;
        }
        next_open_stage(self.stage, token)
    }

    /// The state after one more token.
    #[inline(always)]
    pub fn after_token(self, token: Token<'_>) -> Directive
        ensures { result ≡ after_token self (token_model token.entry) }
    {
        Directive {
            stage: self.next_stage(token),
            last: last_kind(token),
        }
    }

    /// Whether the directive consists of `include` and blanks.
    pub fn names_include(self) -> bool
        ensures { result ≡ is_include_stage self.stage }
    {
        matches!(self.stage, Stage::Include)
    }
}
