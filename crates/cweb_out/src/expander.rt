// The stack machine that yields an output's tokens and expands each name.
ghost use Rattle.std.specs.Prelude.{◌≡◌, ◌≤◌, ◌<◌, ◌+◌, [], None, Some, length, IfOk, IfSome, option_map, vec_capacity};
ghost use Rattle.cweb_store.specs.surface.Tokens.{token_model};
ghost use Rattle.cweb_store.specs.Parts.{Name};
ghost use Rattle.cweb_out.specs.Expansion.{names, expand};
ghost use Rattle.cweb_out.specs.surface.FrameStacks.{YieldsNext, IsFrameStack, IsReady, left};
ghost use Rattle.cweb_out.specs.surface.Outputs.{IsPlanOf, root_at};
ghost use Rattle.cweb_out.specs.Outputs.{root_list};
ghost use Rattle.cweb_out.specs.inner.FrameStacks.{Advances, Enters, KeepsExpander, UsesLower};

pub mod appending;

use crate::frame::Frame;
use crate::outputs::planned::Plan;
use cweb_store::{NameRef, Store, Token};
use std::alloc::{AllocError, Global};

/// Yields the tokens of an output, with each name expanded. Beside the store and the plan it holds only a stack of
/// frames; the last frame is the top. Only this crate's calls write the fields.
#[derive(Drop)]
pub struct Expander<'a> {
    pub store: &'a Store,
    pub plan: &'a Plan,
    pub frames: Vec<Frame<'a>>,
}

impl<'a> Expander<'a> {
    /// An expander of an output of the store's plan. Reserves all frames that it will need; allocates nothing later.
    pub fn new(
        alloc: Global,
        store: &'a Store,
        plan: &'a Plan,
        root: u32,
    ) -> Result<Expander<'a>, AllocError>
        requires root { root < length plan.now.outputs }
        requires made { IsPlanOf store.now plan.now }
        ensures valid { IfOk result
            (λ e. IsFrameStack store.now e.frames.items (vec_capacity e.frames)) }
        ensures store { IfOk result (λ e. e.store ≡ store.entry) }
        ensures plan { IfOk result (λ e. e.plan ≡ plan.entry) }
        ensures left { IfOk result (λ e. left store.now e.frames.items
            ≡ expand store.now (names store.now)
            (root_list store.now (root_at plan.now.outputs root))) }
    {
        let count = store.names();
        let mut frames = Vec::with_capacity(alloc, count as usize + 1)?;
        frames.push_reserved(Frame::of_root(store, plan.root(root)));
        Ok(Expander {
            store,
            plan,
            frames,
        })
    }

    /// Restarts at an output, whatever was left of another. Allocates nothing.
    pub fn restart(&mut self, root: u32)
        requires root { root < length self.old.plan.now.outputs }
        requires made { IsPlanOf self.old.store.now self.old.plan.now }
        requires valid { IsReady self.old }
        ensures valid { IsReady self.new }
        ensures store { self.new.store ≡ self.old.store }
        ensures plan { self.new.plan ≡ self.old.plan }
        ensures left { left self.old.store.now self.new.frames.items
            ≡ expand self.old.store.now (names self.old.store.now)
            (root_list self.old.store.now (root_at self.old.plan.now.outputs root)) }
    {
        self.frames.clear();
        let frame = Frame::of_root(self.store, self.plan.root(root));
        self.frames.push_reserved(frame);
    }

    /// The number of frames: at most the number of names plus one.
    pub fn depth(&self) -> u32
        requires { IsReady self.now }
        ensures count { result ≡ length self.now.frames.items }
        ensures bound { result ≤ names self.now.store.now + 1 }
    {
        let _names = self.store.names();
        self.frames.len() as u32
    }

    /// The next token. Each use is replaced by its name's C text. After `None` it stays `None`. Allocates nothing.
    #[inline(always)]
    pub fn next(&mut self) -> Option<Token<'a>>
        requires { IsReady self.old }
        ensures valid { IsReady self.new }
        ensures store { self.new.store ≡ self.old.store }
        ensures plan { self.new.plan ≡ self.old.plan }
        ensures yields { YieldsNext (left self.old.store.now self.old.frames.items)
            (option_map token_model result) (left self.old.store.now self.new.frames.items) }
    {
        'tokens: while let Some(token) = self.advance() {
            let Token::Name(name) = token else {
                return Some(token);
            };
            self.enter(name);
        }
        None
    }

    // Takes the next unexpanded token, and pops the frames that have ended.
    fn advance(&mut self) -> Option<Token<'a>>
        requires { IsReady self.old }
        ensures keeps { KeepsExpander self.old self.new }
        ensures some { IfSome result (λ t.
            Advances self.old.store.now self.old.frames.items self.new.frames.items (token_model t)) }
        ensures none { result ≡ None
            → (left self.old.store.now self.old.frames.items ≡ []) × (self.new.frames.items ≡ []) }
    {
        let store = self.store;
        'frames: while let Some(frame) = self.frames.last_mut() {
            if let Some(token) = frame.take(store) {
                return Some(token);
            }
            self.frames.pop();
        }
        None
    }

    // Pushes the frame of a name, if the occurrence resolves to one that has a part.
    fn enter(&mut self, name: NameRef)
        requires valid { IsReady self.old }
        requires some { 0 < length self.old.frames.items }
        requires lower { UsesLower self.old.store.now self.old.frames.items (Name name) }
        ensures keeps { KeepsExpander self.old self.new }
        ensures enters { Enters self.old.store.now
            self.old.frames.items self.new.frames.items name }
    {
        let store = self.store;
        let Some(id) = store.standing(name) else {
            return;
        };
        let mut rest = store.parts(id);
        let Some(part) = rest.next() else {
            return;
        };
        self.frames.push_reserved(Frame {
            owner: Some(id),
            defs: false,
            part,
            rest,
        });
    }
}
