// Depth-first search for a cycle of names that use one another.
ghost use Rattle.std.specs.Prelude.{◌≡◌, ◌<◌, ◌+◌, ◌++◌, ◌∷◌, [], true, false, None, Some, length, option_map, All};
ghost use Rattle.std.specs.Prelude.{IfOk, IfSome, OnOk};
ghost use Rattle.std.specs.List.{list_all};
ghost use Rattle.cweb_out.specs.Expansion.{names, uses};
ghost use Rattle.cweb_out.specs.surface.FrameStacks.{FrameIsWithin, suffix};
ghost use Rattle.cweb_out.specs.inner.Planning.{IsRoot, first_cycle};
ghost use Rattle.cweb_out.specs.inner.Search.{Chain, IsIdle, MarksFitPath, Goes, FindsUnranked, Settles, SettlesList};
ghost use Rattle.cweb_out.specs.inner.Search.{Waited, back_to, is_marked, mark_of, cycle_with_next};

use crate::frame::Frame;
use cweb_store::{NameId, Store};
use std::alloc::{AllocError, Global};

/// The state of a name in the search.
#[derive(Clone, Copy)]
pub(crate) enum Mark {
    Unseen,
    /// Waits until each name that it uses has a rank.
    Waits,
    Ranked,
}

/// A waiting name, and the part of its list that is still to be scanned.
#[derive(Drop)]
pub(crate) struct Waiting<'a> {
    pub name: NameId,
    pub text: Frame<'a>,
}

fn is_ranked(marks: &[Mark], name: NameId) -> bool
    requires { name.0 < length marks.now }
    ensures { result ≡ is_marked marks.now name }
{
    matches!(marks[name.0 as usize], Mark::Ranked)
}

fn is_waiting(marks: &[Mark], name: NameId) -> bool
    requires { name.0 < length marks.now }
    ensures waits { result ≡ true → mark_of marks.now name ≡ Mark.Waits }
    ensures other { result ≡ false → is_marked marks.now name ≡ false
        → mark_of marks.now name ≡ Mark.Unseen }
{
    matches!(marks[name.0 as usize], Mark::Waits)
}

// Skips names that have a rank, up to the first one without.
fn next_unranked<'a>(store: &'a Store, marks: &[Mark], text: &mut Frame<'a>) -> Option<NameId>
    requires marks { length marks.now ≡ names store.now }
    requires within { FrameIsWithin store.now text.old }
    ensures within { FrameIsWithin store.now text.new }
    ensures shorter { IfSome result
        (λ id. length (suffix store.now text.new) < length (suffix store.now text.old)) }
    ensures meets { IfSome result (λ id.
        FindsUnranked store.now marks.now (suffix store.now text.old) id (suffix store.now text.new)) }
    ensures none { result ≡ None
        → list_all (is_marked marks.now) (uses store.now (suffix store.now text.old)) ≡ true }
{
    'uses: while let Some(used) = text.take_use(store) {
        if let Some(name) = store.standing(used) {
            if !is_ranked(marks, name) {
                return Some(name);
            }
        }
    }
    None
}

// Appends a name if it is `first` or comes after it.
fn add_from(names: &mut Vec<NameId>, first: NameId, name: NameId) -> Result<(), AllocError>
    ensures { OnOk result (names.new.items ≡ cycle_with_next first names.old.items name) }
{
    if !names.is_empty() || first.0 == name.0 {
        names.push(name)?;
    }
    Ok(())
}

/// A search through the names that outputs use, output by output.
#[derive(Drop)]
pub(crate) struct Search<'a> {
    alloc: Global,
    marks: Vec<Mark>,
    waiting: Vec<Waiting<'a>>,
}

impl<'a> Search<'a> {
    /// A search in which no name is marked.
    pub fn new(alloc: Global, store: &'a Store) -> Result<Search<'a>, AllocError>
        ensures { IfOk result (λ s. IsIdle store.now s) }
    {
        let count = store.names();
        Ok(Search {
            alloc,
            marks: vec![in alloc; Mark::Unseen; count as usize]?,
            waiting: Vec::new(alloc),
        })
    }

    /// Scans the list of a name, and depth-first those of the names that it uses, until each has a rank. Returns a
    /// cycle if one of them uses a waiting name.
    pub fn settle(
        &mut self,
        store: &'a Store,
        name: NameId,
    ) -> Result<Option<Vec<NameId>>, AllocError>
        requires name { name.0 < names store.now }
        requires idle { IsIdle store.now self.old }
        ensures idle { IfOk result (λ cycle. cycle ≡ None → IsIdle store.now self.new) }
        ensures settles { IfOk result
            (λ cycle. Settles store.now name (option_map (λ names. names.items) cycle)) }
    {
        if is_ranked(self.marks.as_slice(), name) {
            return Ok(None);
        }
        self.wait(store, name)?;
        'names: while let Some(top) = self.waiting.pop() {
            if let Some(again) = self.go_on(store, top)? {
                return Ok(Some(self.back_to(again)?));
            }
        }
        Ok(None)
    }

    /// Settles the names that the list of an output uses, in order.
    pub fn settle_list(
        &mut self,
        store: &'a Store,
        root: Option<NameId>,
    ) -> Result<Option<Vec<NameId>>, AllocError>
        requires root { IsRoot store.now root }
        requires idle { IsIdle store.now self.old }
        ensures idle { IfOk result (λ cycle. cycle ≡ None → IsIdle store.now self.new) }
        ensures settles { IfOk result (λ cycle.
            SettlesList store.now root (option_map (λ names. names.items) cycle)) }
    {
        match root {
            Some(name) => self.settle(store, name),
            None => self.settle_program(store),
        }
    }

    fn settle_program(&mut self, store: &'a Store) -> Result<Option<Vec<NameId>>, AllocError>
        requires { IsIdle store.now self.old }
        ensures idle { IfOk result (λ cycle. cycle ≡ None → IsIdle store.now self.new) }
        ensures settles { IfOk result (λ cycle.
            SettlesList store.now None (option_map (λ names. names.items) cycle)) }
    {
        let mut text = Frame::of_root(store, None);
        'names: while let Some(name) = next_unranked(store, self.marks.as_slice(), &mut text) {
            if let Some(cycle) = self.settle(store, name)? {
                return Ok(Some(cycle));
            }
        }
        Ok(None)
    }

    // Pushes a name onto the waiting path.
    fn wait(&mut self, store: &'a Store, name: NameId) -> Result<(), AllocError>
        requires name { name.0 < names store.now }
        requires fit { MarksFitPath store.now self.old.marks.items self.old.waiting.items }
        requires unseen { mark_of self.old.marks.items name ≡ Mark.Unseen }
        ensures { OnOk result
            (Waited store.now self.old.marks.items self.old.waiting.items
            name self.new.marks.items self.new.waiting.items) }
    {
        self.marks[name.0 as usize] = Mark::Waits;
        self.waiting.push(Waiting {
            name,
            text: Frame::of_root(store, Some(name)),
        })?;
        Ok(())
    }

    // Scans on in the list of the last waiting name, up to a name without a rank. That name starts to wait, or is
    // returned if it waits already. Without such a name, the last waiting name gets its rank.
    fn go_on(&mut self, store: &'a Store, top: Waiting<'a>) -> Result<Option<NameId>, AllocError>
        requires name { top.name.0 < names store.now }
        requires fits { MarksFitPath store.now self.old.marks.items
            (self.old.waiting.items ++ top ∷ []) }
        requires chain { Chain store.now (self.old.waiting.items ++ top ∷ []) None }
        ensures { IfOk result (λ again.
            Goes store.now self.old.marks.items
            (self.old.waiting.items ++ top.entry ∷ [])
            self.new.marks.items self.new.waiting.items again) }
    {
        let mut top = top;
        let Some(used) = next_unranked(store, self.marks.as_slice(), &mut top.text) else {
            self.marks[top.name.0 as usize] = Mark::Ranked;
            return Ok(None);
        };
        self.waiting.push(top)?;
        if is_waiting(self.marks.as_slice(), used) {
            return Ok(Some(used));
        }
        self.wait(store, used)?;
        Ok(None)
    }

    // The waiting names from one of them on, and then that one again.
    fn back_to(&self, again: NameId) -> Result<Vec<NameId>, AllocError>
        ensures { IfOk result (λ cycle. cycle.items ≡ back_to again self.now.waiting.items) }
    {
        let mut cycle = Vec::new(self.alloc);
        'path: for waiting in &self.waiting {
            add_from(&mut cycle, again, waiting.name)?;
        }
        cycle.push(again)?;
        Ok(cycle)
    }
}

/// The cycle of the first output whose expansion doesn't end, if any.
pub(crate) fn first_cycle(
    alloc: Global,
    store: &Store,
    roots: &[Option<NameId>],
) -> Result<Option<Vec<NameId>>, AllocError>
    requires { All (IsRoot store.now) roots.now }
    ensures { IfOk result
        (λ cycle. first_cycle store.now roots.now ≡ option_map (λ names. names.items) cycle) }
{
    let mut search = Search::new(alloc, store)?;
    'roots: for root in roots {
        if let Some(cycle) = search.settle_list(store, *root)? {
            return Ok(Some(cycle));
        }
    }
    Ok(None)
}
