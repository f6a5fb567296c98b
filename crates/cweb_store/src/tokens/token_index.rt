// The indices of tokens that are searched for later.
ghost use Rattle.std.specs.Prelude.{◌≡◌, ◌≤◌, [], Bool, List, drop, length, nat_lt, take};
ghost use Rattle.std.specs.Prelude.{vec_capacity};
ghost use Rattle.std.specs.List.{prefix_len};
ghost use Rattle.std.specs.List.Sorted.{IsNonDecreasing};
ghost use Rattle.cweb_store.specs.Parts as spec;
ghost use Rattle.cweb_store.specs.inner.Records.{IsNextNumber, IsTokenIndex, token_numbers};

use crate::parts::Part;
use std::alloc::Global;

/// The indices of the tokens that use a name, and of the Defs, in ascending order.
#[derive(Drop)]
pub struct TokenIndex {
    pub uses: Vec<u32>,
    pub defs: Vec<u32>,
}

impl TokenIndex {
    /// An empty index.
    pub fn new(alloc: Global) -> TokenIndex
        ensures { IsTokenIndex result [] }
    {
        TokenIndex {
            uses: Vec::new(alloc),
            defs: Vec::new(alloc),
        }
    }

    /// Keeps the entries of the first `count` tokens. Allocates nothing.
    pub fn truncate(&mut self, count: usize)
        ensures index { (tokens : List spec.Token) → IsTokenIndex self.old tokens
            → IsTokenIndex self.new (take count tokens) }
        ensures uses { vec_capacity self.new.uses ≡ vec_capacity self.old.uses }
        ensures defs { vec_capacity self.new.defs ≡ vec_capacity self.old.defs }
    {
        let uses = count_below(self.uses.as_slice(), count);
        self.uses.truncate(uses);
        let defs = count_below(self.defs.as_slice(), count);
        self.defs.truncate(defs);
    }
}

/// The entries of the tokens from this one on.
pub fn numbers_from(numbers: &[u32], first: u32) -> &[u32]
    ensures { (test : spec.Token → Bool) → (tokens : List spec.Token)
        → numbers.now ≡ token_numbers test 0 tokens
        → result.now ≡ token_numbers test first (drop first tokens) }
{
    numbers.split_at(count_below(numbers, first as usize)).1
}

/// The first of `numbers` that is in a part, or the end of the part if there is none.
pub fn next_in_range(numbers: &[u32], part: Part) -> u32
    requires { part.first ≤ part.after }
    ensures { (test : spec.Token → Bool) → (tokens : List spec.Token)
        → numbers.now ≡ token_numbers test 0 tokens → IsNextNumber test tokens part result }
{
    let Some(number) = numbers.get(count_below(numbers, part.first as usize)) else {
        return part.after;
    };
    if *number < part.after {
        return *number;
    }
    part.after
}

// The number of entries below a bound. The entries are sorted.
fn count_below(numbers: &[u32], bound: usize) -> usize
    ensures within { result ≤ length numbers.now }
    ensures count { IsNonDecreasing numbers.now
        → result ≡ prefix_len (λ number. nat_lt number bound) numbers.now }
{
    numbers.partition_point(|number| (*number as usize) < bound)
}
