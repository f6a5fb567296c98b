// Builder calls as strings: a word and its argument, with `; ` between two calls. A refused call is repeated, so that
// the examples also pass if an allocation fails.
ghost use Rattle.std.specs.Prelude.{◌≡◌, ◌≤◌, length, is_some};
ghost use Rattle.cweb_store.specs.surface.Tokens.{part_count, token_count};

use super::*;
use calls::{Call, known};
use std::alloc::AllocError;

/// A builder that counts its calls, and knows whether a part is open.
#[derive(Drop)]
pub struct ExampleBuilder {
    builder: Builder,
    calls: u32,
    is_open: bool,
    ghost few_names: { length builder.contents.occurrences ≤ calls },
    ghost few_parts: { part_count builder.contents.parts ≤ calls },
    ghost few_tokens: { token_count builder.contents.parts ≤ calls },
    ghost open_part: { is_open ≡ is_some builder.contents.parts.current },
}

impl ExampleBuilder {
    pub fn new(alloc: Global) -> ExampleBuilder {
        ExampleBuilder {
            builder: Builder::new(alloc),
            calls: 0,
            is_open: false,
        }
    }

    /// Makes calls in order. A refused one is repeated.
    pub fn make_all(&mut self, rt: &impl Abort, calls: &str) -> Result<(), AllocError> {
        for text in calls.split("; ") {
            self.make_again(rt, known(rt, text))?;
        }
        Ok(())
    }

    /// Pushes a token. A refused call is repeated.
    pub fn push(&mut self, rt: &impl Abort, token: Token<'_>) -> Result<(), AllocError> {
        self.make_again(rt, Call::Pushes(token))
    }

    fn make_again(&mut self, rt: &impl Abort, call: Call<'_>) -> Result<(), AllocError> {
        match self.make(rt, call) {
            Ok(()) => Ok(()),
            Err(_) => self.make(rt, call),
        }
    }

    fn make(&mut self, rt: &impl Abort, call: Call<'_>) -> Result<(), AllocError> {
        match call {
            Call::Occurs(text, how, is_file) => self.occur(rt, text, how, is_file),
            Call::Opens(kind) => self.open_part(rt, kind),
            Call::Pushes(token) => self.push_token(rt, token),
            Call::Drops => self.drop_layout(rt),
            Call::Closes => self.close_part(rt),
            Call::Transliterates(byte, text) => self.transliterate(rt, byte, text),
        }
    }

    fn occur(
        &mut self,
        rt: &impl Abort,
        text: &str,
        how: How,
        is_file: bool,
    ) -> Result<(), AllocError> {
        holds(rt, self.calls < 1_000_000);
        self.calls += 1;
        self.builder.occurrence(text.as_bytes(), how, is_file)?;
        Ok(())
    }

    #[tactic(auto, using(cweb_store::proofs::CallerLemmas::token_count_opened, cweb_store::proofs::CallerLemmas::part_count_opened))]
    fn open_part(&mut self, rt: &impl Abort, kind: PartKind) -> Result<(), AllocError> {
        holds(rt, self.calls < 1_000_000);
        self.calls += 1;
        holds(rt, !self.is_open);
        self.builder.open_part(kind)?;
        self.is_open = true;
        Ok(())
    }

    #[tactic(auto, using(cweb_store::proofs::CallerLemmas::token_count_pushed, cweb_store::proofs::CallerLemmas::part_count_pushed))]
    fn push_token(&mut self, rt: &impl Abort, token: Token<'_>) -> Result<(), AllocError> {
        holds(rt, self.calls < 1_000_000);
        self.calls += 1;
        holds(rt, self.is_open);
        self.builder.push(token)?;
        Ok(())
    }

    #[tactic(auto, using(cweb_store::proofs::CallerLemmas::token_count_dropped, cweb_store::proofs::CallerLemmas::part_count_dropped))]
    fn drop_layout(&mut self, rt: &impl Abort) -> Result<(), AllocError> {
        holds(rt, self.calls < 1_000_000);
        self.calls += 1;
        holds(rt, self.is_open);
        self.builder.drop_layout();
        Ok(())
    }

    #[tactic(auto, using(cweb_store::proofs::CallerLemmas::token_count_closed, cweb_store::proofs::CallerLemmas::part_count_closed))]
    fn close_part(&mut self, rt: &impl Abort) -> Result<(), AllocError> {
        holds(rt, self.calls < 1_000_000);
        self.calls += 1;
        holds(rt, self.is_open);
        self.builder.close_part();
        self.is_open = false;
        Ok(())
    }

    fn transliterate(&mut self, rt: &impl Abort, byte: u8, text: &str) -> Result<(), AllocError> {
        holds(rt, self.calls < 1_000_000);
        self.calls += 1;
        holds(rt, byte >= 128);
        self.builder.transliterate(byte, text.as_bytes())?;
        Ok(())
    }

    pub fn finish(self) -> Result<Store, AllocError> {
        let ExampleBuilder {
            builder,
            calls: _,
            is_open: _,
        } = self;
        builder.finish()
    }
}

/// The calls of a test case, and the checks of its store.
pub trait Case {
    fn fill<A: Abort>(&self, rt: &A, example: &mut ExampleBuilder) -> Result<(), AllocError>;

    fn look<A: Abort>(&self, rt: &A, store: &Store);
}

/// Makes and checks the store of a case, again after a failed allocation. Only this function owns one, as that is slow.
pub fn check<C: Case>(rt: &impl Abort, alloc: Global, case: &C) -> Result<(), Fail> {
    let store = filled_again(rt, alloc, case)?;
    case.look(rt, &store);
    Ok(())
}

fn filled_again<C: Case>(rt: &impl Abort, alloc: Global, case: &C) -> Result<Store, AllocError> {
    match filled(rt, alloc, case) {
        Ok(store) => Ok(store),
        Err(_) => filled(rt, alloc, case),
    }
}

fn filled<C: Case>(rt: &impl Abort, alloc: Global, case: &C) -> Result<Store, AllocError> {
    let mut example = ExampleBuilder::new(alloc);
    case.fill(rt, &mut example)?;
    example.finish()
}
