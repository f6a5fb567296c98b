// Strings of about 65,536 bytes. Words are stored once, literals each time.
use super::*;

// The length of the longest string, which repeats one letter.
const LONGEST: usize = 65_537;

// A Word and a Literal of each of four lengths.
fn push_long(
    rt: &impl Abort,
    example: &mut ExampleBuilder,
    letters: &[u8],
) -> Result<(), AllocError> {
    for less in 0..4 {
        if let Some(text) = letters.get(less..) {
            example.push(rt, Token::Word(text))?;
            example.push(rt, Token::Literal(text))?;
        }
    }
    Ok(())
}

// A part of these Words and Literals, each twice.
#[derive(Clone, Copy)]
struct Long<'a>(&'a [u8]);

impl Case for Long<'_> {
    fn fill<A: Abort>(&self, rt: &A, example: &mut ExampleBuilder) -> Result<(), AllocError> {
        example.make_all(rt, "program")?;
        for _ in 0..2 {
            push_long(rt, example, self.0)?;
        }
        Ok(())
    }

    fn look<A: Abort>(&self, rt: &A, store: &Store) {
        has_long_strings(rt, store, self.0);
    }
}

// The expected token at an index of this part.
fn long_token(letters: &[u8], number: u32) -> Token<'_> {
    let text = letters.get((number / 2 % 4) as usize..).unwrap_or(b"");
    if number % 2 == 0 {
        Token::Word(text)
    } else {
        Token::Literal(text)
    }
}

// The longest string.
fn longest(alloc: Global) -> Result<Vec<u8>, AllocError> {
    match vec![in alloc; b'x'; LONGEST] {
        Ok(letters) => Ok(letters),
        Err(_) => vec![in alloc; b'x'; LONGEST],
    }
}

// The store has the expected strings and tokens.
fn has_long_strings(rt: &impl Abort, store: &Store, letters: &[u8]) {
    holds(
        rt,
        store.text_bytes() == 3 * (65_534 + 65_535 + 65_536 + 65_537),
    );
    holds(rt, store.tokens() == 16);
    for number in 0..store.tokens() {
        same_token(rt, store.token(number), long_token(letters, number));
    }
}

#[test]
fn strings_of_about_65536_bytes(rt: HostRuntime) -> Result<(), Fail> {
    let letters = longest(rt.alloc())?;
    check(&rt, rt.alloc(), &Long(letters.as_slice()))
}
