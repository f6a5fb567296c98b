// Punctuators of each byte and of two bytes are stored once.
use super::*;

// A punctuator of this byte, and for every other byte one of two bytes.
fn push_punctuator(
    rt: &impl Abort,
    example: &mut ExampleBuilder,
    byte: u8,
) -> Result<(), AllocError> {
    example.push(rt, Token::Punct(&[byte]))?;
    if byte % 2 == 0 {
        example.push(rt, Token::Punct(&[byte, b'=']))?;
    }
    Ok(())
}

// A part of these punctuators for each byte, twice.
#[derive(Clone, Copy)]
struct EachPunctuator;

impl Case for EachPunctuator {
    fn fill<A: Abort>(&self, rt: &A, example: &mut ExampleBuilder) -> Result<(), AllocError> {
        example.make_all(rt, "program")?;
        for _ in 0..2 {
            for byte in 0..=255 {
                push_punctuator(rt, example, byte)?;
            }
        }
        Ok(())
    }

    fn look<A: Abort>(&self, rt: &A, store: &Store) {
        holds(rt, store.text_bytes() == 512);
        holds(rt, store.tokens() == 768);
        has_punctuators(rt, store);
    }
}

// The store has the punctuators of a byte from an index on. Returns the next index.
fn has_punctuator(rt: &impl Abort, store: &Store, number: u32, byte: u8) -> u32 {
    let next = next_is(rt, store, number, Token::Punct(&[byte]));
    if byte % 2 == 0 {
        return next_is(rt, store, next, Token::Punct(&[byte, b'=']));
    }
    next
}

fn has_punctuators(rt: &impl Abort, store: &Store) {
    let mut number: u32 = 0;
    for _ in 0..2 {
        for byte in 0..=255 {
            number = has_punctuator(rt, store, number, byte);
        }
    }
}

#[test]
fn punctuators_of_each_byte(rt: HostRuntime) -> Result<(), Fail> {
    check(&rt, rt.alloc(), &EachPunctuator)
}
