// Stores of builder calls that are written as strings.
mod calls;
mod direct_bytes;
mod examples;
mod expected;
mod growth;
mod lists;
mod long;
mod names;
mod parts;
mod punctuators;
mod words;

ghost use Rattle.std.specs.Prelude.{◌≡◌, true};

use cweb_store::*;
use examples::{Case, ExampleBuilder, check};
use expected::Expected;
use std::alloc::{AllocError, Global};
use std::process::Abort;
use std::test::Fail;

// Assertions are small functions of their own, so that they and their callers verify quickly.
fn holds(rt: &impl Abort, is_so: bool)
    ensures { is_so ≡ true }
{
    assert!(rt; is_so);
}

fn is_met(rt: &impl Abort, expected: &Expected<'_>, text: &str) {
    assert!(rt; expected.is_met(), "{text}");
}

fn same_token(rt: &impl Abort, got: Token<'_>, want: Token<'_>) {
    assert!(rt; got == want);
}

// The token at an index is this one. Returns the next index.
fn next_is(rt: &impl Abort, store: &Store, number: u32, token: Token<'_>) -> u32 {
    holds(rt, number < store.tokens());
    same_token(rt, store.token(number), token);
    number + 1
}

fn shows_names_and_parts(rt: &impl Abort, store: &Store, text: &str) {
    let mut expected = Expected::new(text);
    expected.compare_store(store);
    is_met(rt, &expected, text);
}

// The store's counts, Defs and replacements.
fn shows_counts(rt: &impl Abort, store: &Store, text: &str) {
    let mut expected = Expected::new(text);
    expected.compare_counts(store);
    is_met(rt, &expected, text);
}

// What is checked of a store.
#[derive(Clone, Copy)]
enum Aspect {
    // names and parts
    Names,
    // counts, Defs and replacements
    Counts,
    // the resolutions of the first three occurrences
    Standings,
    // the first uses of some ranges
    Uses,
}

// Calls, and the expected report on their store.
#[derive(Clone, Copy)]
struct ShownStore<'a> {
    example: &'a str,
    aspect: Aspect,
    text: &'a str,
}

impl Case for ShownStore<'_> {
    fn fill<A: Abort>(&self, rt: &A, example: &mut ExampleBuilder) -> Result<(), AllocError> {
        example.make_all(rt, self.example)
    }

    fn look<A: Abort>(&self, rt: &A, store: &Store) {
        match self.aspect {
            Aspect::Names => shows_names_and_parts(rt, store, self.text),
            Aspect::Counts => shows_counts(rt, store, self.text),
            Aspect::Standings => names::shows_resolutions(rt, store, self.text),
            Aspect::Uses => parts::has_uses(rt, store, self.text),
        }
    }
}

// The store of each example has the expected names and parts.
fn examples_show(rt: &impl Abort, alloc: Global, examples: &[(&str, &str)]) -> Result<(), Fail> {
    let aspect = Aspect::Names;
    for (example, text) in examples {
        let case = ShownStore {
            example: *example,
            aspect,
            text: *text,
        };
        check(rt, alloc, &case)?;
    }
    Ok(())
}

fn counts(rt: &impl Abort, alloc: Global, example: &str, text: &str) -> Result<(), Fail> {
    let aspect = Aspect::Counts;
    check(
        rt,
        alloc,
        &ShownStore {
            example,
            aspect,
            text,
        },
    )
}
