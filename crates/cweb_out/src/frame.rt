// Frames: the progress in the list of an output or a name.
ghost use Rattle.std.specs.Prelude.{◌≡◌, ◌∷◌, [], ◌<◌, false, Some, None, IfSome, length};
ghost use Rattle.std.specs.List.{list_any};
ghost use Rattle.cweb_store.specs.inner.Records.{is_name_use};
ghost use Rattle.cweb_store.specs.Parts.{Name, all_tokens};
ghost use Rattle.cweb_store.specs.surface.Tokens.{token_model};
ghost use Rattle.cweb_out.specs.surface.FrameStacks.{PartIsWithin, FrameIsWithin, suffix};
ghost use Rattle.cweb_out.specs.inner.FrameStacks.{KeepsFrame, PassesNoUse};
ghost use Rattle.cweb_out.specs.surface.Printed.{tokens_of_part};
ghost use Rattle.cweb_out.specs.Outputs.{root_list};

pub mod appending;

use cweb_store::{NameId, NameRef, Part, Parts, Store, Token};

/// The suffix of a list that is still to come: Defs if `defs` is set, then the tokens of `part`, then those of `rest`.
/// The list belongs to the name `owner`, or to the main file if that is `None`.
#[derive(Drop)]
pub struct Frame<'a> {
    pub owner: Option<NameId>,
    pub defs: bool,
    pub part: Part,
    pub rest: Parts<'a>,
}

impl<'a> Frame<'a> {
    /// The whole list of an output. `None` is the main file.
    pub(crate) fn of_root(store: &'a Store, root: Option<NameId>) -> Frame<'a>
        ensures within { FrameIsWithin store.now result }
        ensures list { suffix store.now result ≡ root_list store.now root }
        ensures owner { result.owner ≡ root }
    {
        let part = Part { first: 0, after: 0 };
        match root {
            None => Frame {
                owner: None,
                defs: !store.has_defs_code(),
                part,
                rest: store.unnamed(),
            },
            Some(name) => Frame {
                owner: Some(name),
                defs: false,
                part,
                rest: store.parts(name),
            },
        }
    }

    /// Takes the next unexpanded token. After the first `None` it stays `None`.
    pub(crate) fn take(&mut self, store: &'a Store) -> Option<Token<'a>>
        requires { FrameIsWithin store.now self.old }
        ensures keeps { KeepsFrame store.now self.old self.new }
        ensures some { IfSome result
            (λ t. suffix store.now self.old ≡ token_model t ∷ suffix store.now self.new) }
        ensures none { result ≡ None → suffix store.now self.old ≡ [] }
        ensures ended { result ≡ None → suffix store.now self.new ≡ [] }
    {
        if self.defs {
            self.defs = false;
            return Some(Token::Defs);
        }
        'parts: while self.part.first >= self.part.after {
            self.part = self.rest.next()?;
        }
        let _count = store.tokens();
        let token = store.token(self.part.first);
        self.part.first += 1;
        Some(token)
    }

    /// Takes the tokens up to and including the next use. If there is no use, the suffix that stays has none either.
    pub(crate) fn take_use(&mut self, store: &'a Store) -> Option<NameRef>
        requires { FrameIsWithin store.now self.old }
        ensures keeps { KeepsFrame store.now self.old self.new }
        ensures some { IfSome result (λ name.
            PassesNoUse (suffix store.now self.old) (Name name ∷ suffix store.now self.new)) }
        ensures none { result ≡ None → list_any is_name_use (suffix store.now self.old) ≡ false }
        ensures passed { result ≡ None
            → PassesNoUse (suffix store.now self.old) (suffix store.now self.new) }
    {
        self.defs = false;
        'parts: loop {
            if let Some(name) = take_use_in(store, &mut self.part) {
                return Some(name);
            }
            self.part = self.rest.next()?;
        }
    }
}

// Takes the tokens of a part up to and including its first use. Adjacent uses need no search.
fn take_use_in(store: &Store, part: &mut Part) -> Option<NameRef>
    requires { PartIsWithin (length (all_tokens store.now.parts)) part.old }
    ensures within { PartIsWithin (length (all_tokens store.now.parts)) part.new }
    ensures some { IfSome result (λ name.
        PassesNoUse (tokens_of_part store.now part.old) (Name name ∷ tokens_of_part store.now part.new)) }
    ensures none { result ≡ None
        → list_any is_name_use (tokens_of_part store.now part.old) ≡ false }
    ensures kept { result ≡ None → part.new ≡ part.old }
{
    if part.first >= part.after {
        return None;
    }
    if let Token::Name(name) = store.token(part.first) {
        part.first += 1;
        return Some(name);
    }
    let next = store.next_use(*part);
    if next >= part.after {
        return None;
    }
    part.first = next + 1;
    match store.token(next) {
        Token::Name(name) => Some(name),
        _ => None,
    }
}
