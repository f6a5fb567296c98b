// Parts as ranges of token indices.
ghost use Rattle.std.specs.Prelude.{◌≡◌};

use crate::name::NameRef;

pub mod closed;
pub mod iter;
pub mod links;

/// What a part belongs to.
#[derive(Clone, Copy, Debug, PartialEq, Eq)]
pub enum PartKind {
    /// The program itself.
    Unnamed,
    /// The name that this occurrence resolves to.
    Named(NameRef),
    /// A macro definition. It is not C text.
    Macro,
}

impl PartKind {
    ghost use Rattle.cweb_store.specs.Parts.{is_macro};

    /// Whether the part is a macro definition.
    pub fn is_macro(self) -> bool
        ensures { result ≡ is_macro self }
    {
        match self {
            PartKind::Macro => true,
            _ => false,
        }
    }
}

/// The token indices of a part: from `first` up to, but not including, `after`.
#[derive(Clone, Copy, Debug, PartialEq, Eq)]
pub struct Part {
    pub first: u32,
    pub after: u32,
}

/// A closed part, and what it belongs to.
#[derive(Clone, Copy)]
pub struct PartRange {
    pub kind: PartKind,
    pub part: Part,
}

/// The open part, and the index of its first token.
#[derive(Clone, Copy)]
pub struct Open {
    pub kind: PartKind,
    pub first: u32,
}

impl Open {
    ghost use Rattle.cweb_store.specs.inner.PartRanges.{last_range};

    /// The range of the part if it ends before token `after`.
    pub fn up_to(self, after: u32) -> PartRange
        ensures { result ≡ last_range self after }
    {
        let part = Part {
            first: self.first,
            after,
        };
        PartRange {
            kind: self.kind,
            part,
        }
    }
}
