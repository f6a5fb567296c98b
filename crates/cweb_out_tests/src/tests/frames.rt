// A client that reads the frames of an expander.
use super::cases::{Case, check};
use super::wanted::holds;
use cweb_lines::FileNames;
use cweb_out::{Expander, Frame, plan};
use cweb_store::Store;
use std::alloc::Global;
use std::process::Abort;

/// The number of the name whose list the top frame yields.
fn owner_of(frame: Option<&Frame<'_>>) -> Option<u32> {
    Some(frame?.owner?.0)
}

// The owner of the top frame at the start, and after three tokens.
#[derive(Drop)]
struct Owners {
    first: Option<u32>,
    second: Option<u32>,
}

impl Case for Owners {
    fn look<A: Abort>(&self, rt: &A, alloc: Global, store: &Store, _names: &FileNames) {
        let Ok(plan) = plan(alloc, store, "s.c") else {
            holds(rt, false);
            return;
        };
        holds(rt, plan.outputs() > 0);
        let mut expander = Expander::new(alloc, store, &plan, 0).expect(rt, "memory");
        holds(rt, owner_of(expander.frames.last()) == self.first);
        // the macro definitions, a Word of the program and one of the name
        let _defs = expander.next();
        let _first = expander.next();
        let _second = expander.next();
        holds(rt, owner_of(expander.frames.last()) == self.second);
    }
}

#[test]
fn a_frame_says_whose_list_it_is(rt: HostRuntime) {
    let owners = Owners {
        first: None,
        second: Some(0),
    };
    check(&rt, rt.alloc(), b": wa <A =A wb wc", &owners);
}
