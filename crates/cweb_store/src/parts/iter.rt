// Iterates over the parts of a name, the program or the macros.
ghost use Rattle.std.specs.Prelude.{◌≡◌};
ghost use Rattle.cweb_store.specs.inner.Stored.{followed};

use crate::name::NameId;
use crate::parts::{Part, PartRange};
use std::marker::Model;

/// Which parts are wanted.
#[derive(Clone, Copy)]
pub enum Wanted {
    /// The unnamed ones.
    Program,
    /// Those of a name.
    OfName(NameId),
    /// The macros.
    Macros,
}

/// The remaining parts, in order of appearance. The iterator follows the links, and visits no part of another group.
#[derive(Drop)]
pub struct Parts<'a> {
    ranges: &'a [PartRange],
    skips: &'a [u32],
    skip: u32,
}

impl<'a> Model for Parts<'a> {
    ghost use Rattle.std.specs.Prelude.{List};
    ghost use Rattle.cweb_store.specs.declared.parts.Part.{Part};

    ghost Value = { List Part };

    ghost use Rattle.cweb_store.specs.inner.Stored.{followed};

    ghost view = { λ s. followed s.ranges.now s.skips.now s.skip };
}

impl<'a> Parts<'a> {
    /// The parts after the first `skip` ones. `skips[i]` parts are between part `i` and the next of its group.
    pub fn new(ranges: &'a [PartRange], skips: &'a [u32], skip: u32) -> Parts<'a>
        ensures { result ≡ followed ranges.entry.now skips.entry.now skip }
    {
        Parts {
            ranges,
            skips,
            skip,
        }
    }
}

impl<'a> Iterator for Parts<'a> {
    type Item = Part;

    ghost use Rattle.std.specs.Iterator.{YieldsFirst, item_count};

    ghost next_gives = { YieldsFirst (λ s. s) };

    ghost remaining = { item_count (λ s. s) };

    fn next(&mut self) -> Option<Part> {
        let skip = self.skip as usize;
        let Some(range) = self.ranges.get(skip) else {
            return None;
        };
        let Some(next) = self.skips.get(skip) else {
            return None;
        };
        self.ranges = &self.ranges[skip + 1..];
        self.skips = &self.skips[skip + 1..];
        self.skip = *next;
        Some(range.part)
    }
}
