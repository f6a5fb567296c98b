// The parts of a store: of the program, of a name, and of the macros.
ghost use Rattle.std.specs.Prelude.{◌<◌, ◌↔◌, length, IsTrue};
ghost use Rattle.cweb_store.specs.Names as spec;
ghost use Rattle.cweb_store.specs.Parts.{is_macro, is_of, is_unnamed};
ghost use Rattle.cweb_store.specs.surface.Tokens.{AreRangesOf, too_many};
ghost use Rattle.cweb_store.specs.Faults.{has_part};
ghost use Rattle.cweb_store.specs.inner.Stored.{is_wanted};

use crate::parts::iter::{Parts, Wanted};
use crate::{NameId, Store};

impl Store {
    /// The unnamed parts, which are the program.
    pub fn unnamed(&self) -> Parts<'_>
        ensures { AreRangesOf is_unnamed self.now.parts result }
    {
        self.wanted(Wanted::Program)
    }

    /// The parts of a name, in order: its C text. The iterator is empty exactly if the name has no part.
    pub fn parts(&self, name: NameId) -> Parts<'_>
        ensures ranges { AreRangesOf (is_of (spec.resolutions self.now.occurrences) name)
            self.now.parts result }
        ensures some { IsTrue (has_part (spec.resolutions self.now.occurrences) self.now.parts name)
            ↔ 0 < length result }
    {
        self.wanted(Wanted::OfName(name))
    }

    /// The macro definitions.
    pub fn macros(&self) -> Parts<'_>
        ensures ranges { AreRangesOf is_macro self.now.parts result }
        ensures few { length result < too_many }
    {
        self.wanted(Wanted::Macros)
    }

    fn wanted(&self, wanted: Wanted) -> Parts<'_>
        ensures ranges { AreRangesOf (is_wanted (spec.resolutions self.now.occurrences) wanted)
            self.now.parts result }
        ensures few { length result < too_many }
    {
        let ranges = self.parts.ranges();
        let skip = ranges.len() as u32 - self.answers.links.heads.get(wanted);
        Parts::new(ranges, self.answers.links.skips.as_slice(), skip)
    }
}
