// Results that need all names and parts.
ghost use Rattle.std.specs.Prelude.{IfOk};
ghost use Rattle.cweb_store.specs.inner.Stored.{AreAnswers};

use crate::faults::name_faults;
use crate::name::{NameFault, NameId};
use crate::occurrences::Occurrences;
use crate::parts::closed::ClosedParts;
use crate::parts::links::Links;
use crate::resolution::Resolutions;
use indexmap::IndexSet;
use std::alloc::{AllocError, Global};

/// The names, resolutions, file names, faults, and the links of the parts.
pub(crate) struct Answers {
    // for each name the number of the occurrence that first gave it in full
    pub firsts: Vec<u32>,
    pub resolutions: Resolutions,
    pub files: IndexSet<NameId>,
    pub faults: Vec<NameFault>,
    pub links: Links,
    pub has_defs_code: bool,
}

impl Drop for Answers {
    fn drop(self) {
        let Self {
            firsts: _,
            resolutions: _,
            files: _,
            faults: _,
            links: _,
            has_defs_code: _,
        } = self;
    }
}

impl Answers {
    /// Computes the answers for a web's names and parts.
    pub fn of(
        alloc: Global,
        occurrences: &Occurrences,
        parts: &ClosedParts,
    ) -> Result<Answers, AllocError>
        ensures { IfOk result (λ all. AreAnswers occurrences.now parts.now all) }
    {
        let (names, resolutions) = occurrences.resolve()?;
        let files = occurrences.files(resolutions.as_slice())?;
        let links = Links::new(alloc, parts.ranges(), resolutions.as_slice(), names.len())?;
        let (faults, firsts) = name_faults(
            alloc,
            occurrences,
            parts,
            names,
            resolutions.as_slice(),
            &files,
            &links.heads,
        )?;
        Ok(Answers {
            firsts,
            resolutions,
            files,
            faults,
            links,
            has_defs_code: parts.has_defs_code(),
        })
    }
}
