// Spellings as keys of a sorted map.
ghost use Rattle.std.specs.Prelude.{◌≡◌, Some, refl, bytes_eq};
ghost use Rattle.std.specs.Ordering.{nat_cmp};
ghost use Rattle.std.specs.Cmp.{partial_equiv_from_equiv};
ghost use Rattle.std.specs.Cmp.Lexicographic.{slice_cmp, nat_list_eq_equiv, nat_list_cmp_total, texts_ties, texts_po};

use std::cmp::Ordering;
use std::marker::Model;

/// A spelling, ordered by its bytes.
#[derive(Drop)]
pub struct SortKey<'a> {
    spelling: &'a [u8],
}

impl<'a> Model for SortKey<'a> {
    ghost use Rattle.std.specs.Prelude.{List, ℕ};

    ghost Value = { List ℕ };

    ghost view = { λ s. s.spelling.now };
}

impl<'a> SortKey<'a> {
    /// The key of a spelling.
    pub fn new(spelling: &'a [u8]) -> SortKey<'a>
        ensures { result ≡ spelling.now }
    {
        SortKey { spelling }
    }

    /// The bytes of the spelling.
    pub fn spelling(&self) -> &'a [u8]
        ensures { result.now ≡ self.now }
    {
        self.spelling
    }
}

impl PartialEq for SortKey<'_> {
    ghost eq = { bytes_eq };

    ghost laws = { partial_equiv_from_equiv nat_list_eq_equiv };

    fn eq(&self, other: &SortKey<'_>) -> bool {
        self.spelling == other.spelling
    }
}

impl Eq for SortKey<'_> {
    ghost laws = { nat_list_eq_equiv };
}

impl PartialOrd for SortKey<'_> {
    ghost partial_cmp = { λ a b. Some (slice_cmp nat_cmp a b) };

    ghost laws = { texts_po };

    fn partial_cmp(&self, other: &SortKey<'_>) -> Option<Ordering> {
        Some(self.cmp(other))
    }
}

impl Ord for SortKey<'_> {
    ghost cmp = { slice_cmp nat_cmp };

    ghost total = { nat_list_cmp_total };

    ghost matches_partial_cmp = { λ a b. refl };

    ghost matches_eq = { texts_ties };

    #[inline]
    fn cmp(&self, other: &SortKey<'_>) -> Ordering {
        self.spelling.cmp(other.spelling)
    }
}
