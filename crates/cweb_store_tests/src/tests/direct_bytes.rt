// Direct tokens, and their edges.
use super::*;

// The token at an index has these bytes and this edge.
fn has_direct_bytes(rt: &impl Abort, store: &Store, number: u32, string: &[u8], edge: Edge) {
    holds(rt, number < store.tokens());
    let direct = store.token_reader().direct(number);
    let direct = direct.expect(rt, "a direct token");
    holds(rt, direct.string == string);
    holds(rt, direct.edge as u8 == edge as u8);
}

fn have_direct_bytes(rt: &impl Abort, store: &Store) {
    has_direct_bytes(rt, store, 0, b"foo", Edge::Word);
    has_direct_bytes(rt, store, 1, b"12", Edge::Number);
    has_direct_bytes(rt, store, 2, b"<", Edge::OperatorOperator);
    has_direct_bytes(rt, store, 3, b".=", Edge::NumericOperator);
    has_direct_bytes(rt, store, 4, b"x", Edge::PlainPlain);
    has_direct_bytes(rt, store, 5, b"\n", Edge::LineEnd);
    has_direct_bytes(rt, store, 6, b"foo", Edge::Word);
}

// Tokens with each edge.
#[derive(Clone, Copy)]
struct DirectTokens;

impl Case for DirectTokens {
    fn fill<A: Abort>(&self, rt: &A, example: &mut ExampleBuilder) -> Result<(), AllocError> {
        let calls = "program; word foo; number 12; sign <; sign .=; sign x; newline; word foo";
        example.make_all(rt, calls)
    }

    fn look<A: Abort>(&self, rt: &A, store: &Store) {
        have_direct_bytes(rt, store);
    }
}

#[test]
fn direct_bytes_and_edges(rt: HostRuntime) -> Result<(), Fail> {
    check(&rt, rt.alloc(), &DirectTokens)
}

// None of the first `tokens` tokens is direct.
fn have_no_direct_bytes(rt: &impl Abort, store: &Store, tokens: u32) {
    holds(rt, store.tokens() == tokens);
    for number in 0..tokens {
        holds(rt, store.token_reader().direct(number).is_none());
    }
}

// Tokens that aren't direct.
#[derive(Clone, Copy)]
struct IndirectTokens;

impl Case for IndirectTokens {
    fn fill<A: Abort>(&self, rt: &A, example: &mut ExampleBuilder) -> Result<(), AllocError> {
        example.make_all(rt, "program; word é; sign é; join; defs")
    }

    fn look<A: Abort>(&self, rt: &A, store: &Store) {
        have_no_direct_bytes(rt, store, 4);
    }
}

#[test]
fn tokens_without_direct_bytes(rt: HostRuntime) -> Result<(), Fail> {
    check(&rt, rt.alloc(), &IndirectTokens)
}
