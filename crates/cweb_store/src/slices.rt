// The lists of a `StringList`, as slices.
ghost use Rattle.std.specs.Prelude.{◌≡◌, ◌<◌, ◌+◌, List, ℕ, length, slice_get, Some};
ghost use Rattle.cweb_store.specs.inner.StringLists.{IsStoredEdge};

use crate::edges::Edge;
use std::marker::Model;

/// The strings of a `StringList`, numbered from 0. A caller that reads many strings borrows the lists once.
#[derive(Drop)]
pub struct StringSlices<'a> {
    pub(crate) bytes: &'a [u8],
    pub(crate) offsets: &'a [u32],
    pub(crate) edges: &'a [Edge],
}

impl<'a> Model for StringSlices<'a> {
    ghost use Rattle.std.specs.Prelude.{List, ℕ, drop};

    ghost Value = { List (List ℕ) };

    ghost use Rattle.cweb_store.specs.inner.StringLists.{strings_from, IsStringList};

    ghost view = { λ s. strings_from s.bytes.now 0 (drop 1 s.offsets.now) };

    ghost invariant = { λ s. IsStringList s.bytes.now s.offsets.now s.edges.now };
}

impl<'a> StringSlices<'a> {
    /// The string with a number.
    #[inline(always)]
    #[tactic(auto, using(crate::proofs::StringListLemmas::place_is))]
    pub fn string(&self, number: usize) -> &'a [u8]
        requires { number < length self.now }
        ensures { slice_get self.now number ≡ Some result.now }
    {
        // the length bounds `number + 1`
        let _offsets = self.offsets.len();
        let begin = self.offsets[number] as usize;
        let end = self.offsets[number + 1] as usize;
        &self.bytes[begin..end]
    }

    /// The stored edge of the string with a number.
    #[inline(always)]
    pub fn edge(&self, number: usize) -> Edge
        requires { number < length self.now }
        ensures { (string : List ℕ) → slice_get self.now number ≡ Some string
            → IsStoredEdge string result }
    {
        self.edges[number]
    }
}
