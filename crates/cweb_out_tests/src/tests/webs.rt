// Stores of webs that are written as strings: words with blanks between them. The first byte of a word is its kind.
//
// Parts: `:` begins a part of the program, `=NAME` of a name, `(NAME` of a file's name, `#` a macro. A part ends at the
// next one. `@NAME` is a file's name without a part. `%cBYTES` sets the replacement of the byte 128 + c. Tokens: `wx`
// Word, `n1` Number, `l"s"` Literal, `vx` Verbatim, `p+` Punct, `_` Blank, `$` Newline, `&` Join, `h` Defs, `[1` and
// `]1` Head and Tail, `m7` and `M7` a Mark of line 7 of file 0 and 1, `<NAME` a use, `?NAME` a use by abbreviation.
ghost use Rattle.std.specs.Prelude.{◌≡◌, ◌≤◌, ◌+◌, length, is_some};
ghost use Rattle.cweb_store.specs.surface.Tokens.{part_count, token_count};

use super::wanted::holds;
use cweb_files::{FileId, Place};
use cweb_store::{Builder, How, NameRef, PartKind, Store, Token};
use std::alloc::{AllocError, Global};
use std::process::Abort;

// A builder that counts its calls, and knows whether a part is open.
#[derive(Drop)]
struct ExampleBuilder {
    builder: Builder,
    calls: u32,
    is_open: bool,
    ghost few_names: { length builder.contents.occurrences ≤ calls },
    ghost few_parts: { part_count builder.contents.parts ≤ calls },
    ghost few_tokens: { token_count builder.contents.parts ≤ calls },
    ghost open_part: { is_open ≡ is_some builder.contents.parts.current },
}

impl ExampleBuilder {
    fn new(alloc: Global) -> ExampleBuilder {
        ExampleBuilder {
            builder: Builder::new(alloc),
            calls: 0,
            is_open: false,
        }
    }

    fn occur(
        &mut self,
        rt: &impl Abort,
        name: &[u8],
        how: How,
        is_file: bool,
    ) -> Result<NameRef, AllocError> {
        holds(rt, self.calls < 10_000_000);
        self.calls += 1;
        Ok(self.builder.occurrence(name, how, is_file)?)
    }

    #[tactic(auto, using(cweb_store::proofs::CallerLemmas::token_count_opened, cweb_store::proofs::CallerLemmas::token_count_closed, cweb_store::proofs::CallerLemmas::part_count_opened, cweb_store::proofs::CallerLemmas::part_count_closed))]
    fn open(&mut self, rt: &impl Abort, kind: PartKind) -> Result<(), AllocError> {
        holds(rt, self.calls < 10_000_000);
        self.calls += 1;
        if self.is_open {
            self.builder.close_part();
            self.is_open = false;
        }
        self.builder.open_part(kind)?;
        self.is_open = true;
        Ok(())
    }

    #[tactic(auto, using(cweb_store::proofs::CallerLemmas::token_count_pushed, cweb_store::proofs::CallerLemmas::part_count_pushed))]
    fn push(&mut self, rt: &impl Abort, token: Token<'_>) -> Result<(), AllocError> {
        holds(rt, self.calls < 10_000_000);
        self.calls += 1;
        holds(rt, self.is_open);
        self.builder.push(token)?;
        Ok(())
    }

    fn read_all(&mut self, rt: &impl Abort, web: &[u8]) -> Result<(), AllocError> {
        for word in web.split(|byte| *byte == b' ') {
            self.read(rt, word)?;
        }
        Ok(())
    }

    fn read(&mut self, rt: &impl Abort, word: &[u8]) -> Result<(), AllocError> {
        let Some((sign, rest)) = word.split_first() else {
            return Ok(());
        };
        match *sign {
            b':' => self.open(rt, PartKind::Unnamed),
            b'#' => self.open(rt, PartKind::Macro),
            b'=' => self.open_named(rt, rest, false),
            b'(' => self.open_named(rt, rest, true),
            b'@' => self.mention(rt, rest),
            b'<' => self.put_use(rt, rest, How::Full),
            b'?' => self.put_use(rt, rest, How::Prefix),
            b'%' => self.replace(rt, rest),
            sign => self.push(rt, token(sign, rest)),
        }
    }

    fn open_named(
        &mut self,
        rt: &impl Abort,
        name: &[u8],
        is_file: bool,
    ) -> Result<(), AllocError> {
        let name = self.occur(rt, name, How::Full, is_file)?;
        self.open(rt, PartKind::Named(name))
    }

    fn mention(&mut self, rt: &impl Abort, name: &[u8]) -> Result<(), AllocError> {
        self.occur(rt, name, How::Full, true)?;
        Ok(())
    }

    fn put_use(&mut self, rt: &impl Abort, name: &[u8], how: How) -> Result<(), AllocError> {
        let name = self.occur(rt, name, how, false)?;
        self.push(rt, Token::Name(name))
    }

    fn replace(&mut self, rt: &impl Abort, rest: &[u8]) -> Result<(), AllocError> {
        let Some((byte, text)) = rest.split_first() else {
            return Ok(());
        };
        holds(rt, *byte < 128);
        self.builder.transliterate(128 + *byte, text)?;
        Ok(())
    }

    fn finish(self) -> Result<Store, AllocError> {
        let ExampleBuilder {
            builder,
            calls: _,
            is_open: _,
        } = self;
        builder.finish()
    }
}

// The decimal number of these digits, if it is below a million.
fn number(digits: &[u8]) -> u32 {
    let mut number: u32 = 0;
    for digit in digits {
        number = number % 100_000 * 10 + u32::from(*digit % 16 % 10);
    }
    number
}

fn mark(file: u32, line: &[u8]) -> Token<'static> {
    Token::Mark(Place {
        file: FileId(file),
        line: number(line),
    })
}

fn token(sign: u8, rest: &[u8]) -> Token<'_> {
    match sign {
        b'w' => Token::Word(rest),
        b'n' => Token::Number(rest),
        b'l' => Token::Literal(rest),
        b'v' => Token::Verbatim(rest),
        b'p' => Token::Punct(rest),
        b'_' => Token::Blank,
        b'$' => Token::Newline,
        b'&' => Token::Join,
        b'h' => Token::Defs,
        b'[' => Token::Head(number(rest)),
        b']' => Token::Tail(number(rest)),
        b'm' => mark(0, rest),
        _ => mark(1, rest),
    }
}

pub fn store_of(rt: &impl Abort, alloc: Global, web: &[u8]) -> Result<Store, AllocError> {
    let mut example = ExampleBuilder::new(alloc);
    example.read_all(rt, web)?;
    example.finish()
}
