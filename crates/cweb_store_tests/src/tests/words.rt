// Words are stored once, however many there are and whatever their bytes are.
use super::*;

// The bytes of Words that differ only in the middle.
fn digits(number: u32) -> [u8; 24] {
    let mut bytes = [b'a'; 24];
    bytes[10] = b'0' + (number / 10_000 % 10) as u8;
    bytes[11] = b'0' + (number / 1_000 % 10) as u8;
    bytes[12] = b'0' + (number / 100 % 10) as u8;
    bytes[13] = b'0' + (number / 10 % 10) as u8;
    bytes[14] = b'0' + (number % 10) as u8;
    bytes
}

// Which of these bytes a Word has.
#[derive(Clone, Copy)]
enum Words {
    // eight bytes: the hash key has all of them
    Short,
    // all bytes: the first and last ones are equal, so all Words have one hash key
    OfOneKey,
}

impl Words {
    fn of(self, bytes: &[u8; 24]) -> &[u8] {
        match self {
            Words::Short => &bytes.as_slice()[8..16],
            Words::OfOneKey => bytes.as_slice(),
        }
    }
}

// A part with `count` distinct Words, twice. The store has them once, and the tokens in order.
#[derive(Clone, Copy)]
struct PushedTwice {
    words: Words,
    count: u32,
    bytes: u64,
}

impl Case for PushedTwice {
    fn fill<A: Abort>(&self, rt: &A, example: &mut ExampleBuilder) -> Result<(), AllocError> {
        example.make_all(rt, "program")?;
        for _ in 0..2 {
            for number in 0..self.count {
                let word = digits(number);
                example.push(rt, Token::Word(self.words.of(&word)))?;
            }
        }
        Ok(())
    }

    fn look<A: Abort>(&self, rt: &A, store: &Store) {
        holds(rt, store.text_bytes() == self.bytes);
        has_words(rt, store, self.words, self.count);
    }
}

// The tokens are `count` Words in order, repeated.
fn has_words(rt: &impl Abort, store: &Store, words: Words, count: u32) {
    holds(rt, count > 0);
    for number in 0..store.tokens() {
        let word = digits(number % count);
        same_token(rt, store.token(number), Token::Word(words.of(&word)));
    }
}

// The table grows four times.
#[test]
fn many_words(rt: HostRuntime) -> Result<(), Fail> {
    let words = Words::Short;
    let case = PushedTwice {
        words,
        count: 300,
        bytes: 2400,
    };
    check(&rt, rt.alloc(), &case)
}

// Each Word is stored once, and the Words before and after the 65,536th one alike.
#[test]
fn more_words_than_16_bits_count(rt: HostRuntime) -> Result<(), Fail> {
    let words = Words::Short;
    let case = PushedTwice {
        words,
        count: 70_000,
        bytes: 560_000,
    };
    check(&rt, rt.alloc(), &case)
}

// All Words belong into the same eight slots.
#[test]
fn words_of_one_key(rt: HostRuntime) -> Result<(), Fail> {
    let words = Words::OfOneKey;
    let case = PushedTwice {
        words,
        count: 40,
        bytes: 960,
    };
    check(&rt, rt.alloc(), &case)
}

const LETTERS: &[u8; 40] = b"aaaaaaaaaaaaaaaaaaaaaaaaaaaaaaaaaaaaaaaa";

// Words that are prefixes of each other, and the empty one.
#[derive(Clone, Copy)]
struct EachLength;

impl Case for EachLength {
    fn fill<A: Abort>(&self, rt: &A, example: &mut ExampleBuilder) -> Result<(), AllocError> {
        example.make_all(rt, "program")?;
        for _ in 0..2 {
            for len in 0..41 {
                example.push(rt, Token::Word(&LETTERS.as_slice()[..len]))?;
            }
        }
        Ok(())
    }

    fn look<A: Abort>(&self, rt: &A, store: &Store) {
        holds(rt, store.text_bytes() == 820);
        has_each_length(rt, store);
    }
}

fn has_each_length(rt: &impl Abort, store: &Store) {
    for number in 0..store.tokens() {
        let len = number as usize % 41;
        let word = &LETTERS.as_slice()[..len];
        same_token(rt, store.token(number), Token::Word(word));
    }
}

#[test]
fn words_of_each_length(rt: HostRuntime) -> Result<(), Fail> {
    check(&rt, rt.alloc(), &EachLength)
}

// The length of the longest Words that differ in one byte.
const LONGEST: usize = 18;

// A Word of this length with another letter at one place.
fn marked(bytes: &mut [u8; LONGEST], len: usize, place: usize) -> &[u8] {
    *bytes = [b'a'; LONGEST];
    if place < LONGEST {
        bytes[place] = b'b';
    }
    match bytes.get(..len) {
        Some(word) => word,
        None => b"",
    }
}

// The Words of a length, with another letter at each place in turn.
fn push_length(
    rt: &impl Abort,
    example: &mut ExampleBuilder,
    len: usize,
) -> Result<(), AllocError> {
    let mut bytes = [b'a'; LONGEST];
    for place in 0..len {
        example.push(rt, Token::Word(marked(&mut bytes, len, place)))?;
    }
    Ok(())
}

// Words of each length, twice.
#[derive(Clone, Copy)]
struct EachPlace;

impl Case for EachPlace {
    fn fill<A: Abort>(&self, rt: &A, example: &mut ExampleBuilder) -> Result<(), AllocError> {
        example.make_all(rt, "program")?;
        for _ in 0..2 {
            for len in 1..=LONGEST {
                push_length(rt, example, len)?;
            }
        }
        Ok(())
    }

    fn look<A: Abort>(&self, rt: &A, store: &Store) {
        holds(rt, store.text_bytes() == 2109);
        has_each_place(rt, store);
    }
}

// The store has the Words of a length from an index on. Returns the next index.
fn has_length(rt: &impl Abort, store: &Store, first: u32, len: usize) -> u32 {
    let mut bytes = [b'a'; LONGEST];
    let mut number = first;
    for place in 0..len {
        let word = marked(&mut bytes, len, place);
        number = next_is(rt, store, number, Token::Word(word));
    }
    number
}

fn has_each_place(rt: &impl Abort, store: &Store) {
    let mut number: u32 = 0;
    for _ in 0..2 {
        for len in 1..=LONGEST {
            number = has_length(rt, store, number, len);
        }
    }
    holds(rt, number == store.tokens());
}

#[test]
fn words_that_differ_in_one_byte(rt: HostRuntime) -> Result<(), Fail> {
    check(&rt, rt.alloc(), &EachPlace)
}
