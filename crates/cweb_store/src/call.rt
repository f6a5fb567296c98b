// The calls of a builder as values.
ghost use Rattle.std.specs.Prelude.{◌≡◌, ◌-◌, ◌↔◌, if◌then◌else◌, IsTrue, OnOk, OnErr};
ghost use Rattle.cweb_store.specs.laws.Laws.{after_call, call_model, AcceptsCall};
ghost use Rattle.cweb_store.specs.surface.Tokens.{too_many};
ghost use Rattle.cweb_store.specs.inner.Stored.{HoldsAtMost};

use crate::{Builder, How, PartKind, Token};
use std::alloc::AllocError;

/// A call of a builder. It borrows its bytes.
#[derive(Clone, Copy)]
pub enum Call<'a> {
    /// `occurrence`: the name or prefix, which of them it is, and whether it is a file's.
    Occurs(&'a [u8], How, bool),
    /// `open_part`.
    Opens(PartKind),
    /// `push`.
    Pushes(Token<'a>),
    /// `drop_layout`.
    Drops,
    /// `close_part`.
    Closes,
    /// `transliterate`: a byte and its replacement.
    Transliterates(u8, &'a [u8]),
}

/// A call, and whether it returned `Ok`.
#[derive(Clone, Copy)]
pub struct Answered<'a> {
    pub call: Call<'a>,
    pub is_ok: bool,
}

impl Call<'_> {
    /// Makes the call if the builder's state allows it; else nothing changes. Returns whether it returned `Ok`.
    pub(crate) fn make_in_place(self, builder: &mut Builder) -> bool
        requires { HoldsAtMost (too_many - 2) builder.old.contents }
        ensures taken { IsTrue result → AcceptsCall builder.old.contents (call_model self.entry) }
        ensures made { builder.new.contents ≡ (if result
            then after_call builder.old.contents (call_model self.entry)
            else builder.old.contents) }
    {
        self.is_in_place(builder) && self.make(builder).is_ok()
    }

    // Whether the builder's state allows the call.
    fn is_in_place(self, builder: &Builder) -> bool
        requires { HoldsAtMost (too_many - 2) builder.now.contents }
        ensures { IsTrue result ↔ AcceptsCall builder.now.contents (call_model self.entry) }
    {
        match self {
            Call::Occurs(..) => true,
            Call::Opens(_) => !builder.is_open(),
            Call::Pushes(_) | Call::Drops | Call::Closes => builder.is_open(),
            Call::Transliterates(byte, _) => byte >= 128,
        }
    }

    /// Makes the call. A refused call changes nothing.
    pub fn make(self, builder: &mut Builder) -> Result<(), AllocError>
        requires { AcceptsCall builder.old.contents (call_model self) }
        ensures ok { OnOk result
            (builder.new.contents ≡ after_call builder.old.contents (call_model self.entry)) }
        ensures err { OnErr result (builder.new.contents ≡ builder.old.contents) }
    {
        match self {
            Call::Occurs(name, how, is_file) => {
                builder.occurrence(name, how, is_file)?;
            }
            Call::Opens(kind) => builder.open_part(kind)?,
            Call::Pushes(token) => builder.push(token)?,
            Call::Drops => builder.drop_layout(),
            Call::Closes => builder.close_part(),
            Call::Transliterates(byte, new) => builder.transliterate(byte, new)?,
        }
        Ok(())
    }
}
