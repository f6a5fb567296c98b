// Webs with many names.
ghost use Rattle.std.specs.Prelude.{◌<◌, length, vec_capacity};
ghost use Rattle.cweb_out.specs.surface.FrameStacks.{IsFrameStack};
ghost use Rattle.cweb_out.specs.surface.Outputs.{IsPlanOf};

use super::cases::{Case, check};
use super::long_webs::chain;
use super::outputs::web_outputs_are;
use super::wanted::holds;
use cweb_lines::FileNames;
use cweb_out::{Expander, Plan, PlanFault, plan};
use cweb_store::{NameId, Store, Token};
use std::alloc::Global;
use std::process::Abort;

// Counts the Words `x` in this many calls after the first, which returns Defs. Returns the greatest depth, too.
fn counted(rt: &impl Abort, expander: &mut Expander<'_>, calls: u32) -> (u32, u32)
    requires { IsFrameStack expander.old.store.now expander.old.frames.items
        (vec_capacity expander.old.frames) }
{
    holds(rt, expander.next() == Some(Token::Defs));
    let mut count = 0;
    let mut depth = 0;
    'calls: for _ in 0..calls {
        let token = expander.next();
        depth = expander.depth().max(depth);
        if token.is_none() {
            break;
        }
        holds(rt, token == Some(Token::Word(b"x")));
        holds(rt, count < 1_000_000);
        count += 1;
    }
    (count, depth)
}

// The expected counts of the main file of a web.
#[derive(Drop)]
struct Counts {
    calls: u32,
    count: u32,
    depth: u32,
}

impl Case for Counts {
    fn look<A: Abort>(&self, rt: &A, alloc: Global, store: &Store, _: &FileNames) {
        match plan(alloc, store, "s.c") {
            Ok(plan) => count_plan(rt, alloc, store, &plan, self),
            Err(_) => holds(rt, false),
        }
    }
}

fn count_plan(rt: &impl Abort, alloc: Global, store: &Store, plan: &Plan, counts: &Counts)
    requires some { 0 < length plan.now.outputs }
    requires made { IsPlanOf store.now plan.now }
{
    let mut expander = Expander::new(alloc, store, plan, 0).expect(rt, "memory");
    let (count, depth) = counted(rt, &mut expander, counts.calls);
    holds(rt, count == counts.count);
    holds(rt, depth == counts.depth);
}

// Checks the counts of a chain of names. Each name uses the next one this often.
fn counts_chain(rt: &impl Abort, alloc: Global, last: u32, uses: u32, wanted: &Counts) {
    let web = chain(alloc, last, uses, "", " wx").expect(rt, "memory");
    check(rt, alloc, web.as_bytes(), wanted);
}

// Each name uses the next one twice.
#[test]
fn names_that_double(rt: HostRuntime) {
    const TEN: Counts = Counts {
        calls: 2000,
        count: 1024,
        depth: 11,
    };
    const SIXTY: Counts = Counts {
        calls: 1000,
        count: 1000,
        depth: 61,
    };
    counts_chain(&rt, rt.alloc(), 9, 2, &TEN);
    counts_chain(&rt, rt.alloc(), 59, 2, &SIXTY);
}

#[test]
fn a_chain_of_ten_thousand_names(rt: HostRuntime) {
    const COUNTS: Counts = Counts {
        calls: 10,
        count: 1,
        depth: 10_001,
    };
    let web = chain(rt.alloc(), 9_999, 1, "", " wx").expect(&rt, "memory");
    check(&rt, rt.alloc(), web.as_bytes(), &COUNTS);
    web_outputs_are(&rt, rt.alloc(), web.as_bytes(), b"s.c: x\n");
}

// A cycle of this many names in order, with the first one repeated at the end.
#[derive(Drop)]
struct Cycle(usize);

impl Case for Cycle {
    fn look<A: Abort>(&self, rt: &A, alloc: Global, store: &Store, _: &FileNames) {
        match plan(alloc, store, "s.c") {
            Err(PlanFault::Cycle(names)) => is_cycle(rt, &names, self.0),
            _ => holds(rt, false),
        }
    }
}

fn is_cycle(rt: &impl Abort, names: &[NameId], size: usize) {
    holds(rt, size > 0 && size < 1_000_000);
    holds(rt, names.len() == size + 1);
    for (i, name) in names.iter().enumerate() {
        holds(rt, name.0 as usize == i % size);
    }
}

#[test]
fn a_cycle_of_ten_thousand_names(rt: HostRuntime) {
    let web = chain(rt.alloc(), 9_999, 1, "", " wx <0").expect(&rt, "memory");
    check(&rt, rt.alloc(), web.as_bytes(), &Cycle(10_000));
}
