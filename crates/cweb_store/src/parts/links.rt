// Links from each part to the next part of its group.
ghost use Rattle.std.specs.Prelude.{◌≡◌, ◌<◌, [], length, IfOk};
ghost use Rattle.cweb_store.specs.surface.Tokens.{too_many};
ghost use Rattle.cweb_store.specs.inner.Stored.{AreLinked, IsPut, head_of, AreWithin};

use crate::name::{NameId, NameKind};
use crate::parts::iter::Wanted;
use crate::parts::{PartKind, PartRange};
use crate::resolution::resolved_at;
use std::alloc::{AllocError, Global};
use std::mem::replace;

/// For the program, the macros and each name: the number of parts from its first one to the end, or 0 if it has none.
#[derive(Drop)]
pub struct Heads {
    pub program: u32,
    pub macros: u32,
    pub names: Vec<u32>,
}

/// For each part, the number of parts before the next one of its group: a name, the program or the macros.
#[derive(Drop)]
pub struct Links {
    pub skips: Vec<u32>,
    pub heads: Heads,
}

impl Heads {
    fn none(alloc: Global, names: usize) -> Result<Heads, AllocError>
        ensures linked { IfOk result (λ heads. AreLinked [] [] [] heads) }
        ensures names { IfOk result (λ heads. length heads.names.items ≡ names) }
    {
        Ok(Heads {
            program: 0,
            macros: 0,
            names: vec![in alloc; 0; names]?,
        })
    }

    /// The number of parts from the first one of the group to the last of all, or 0 for an empty group.
    pub fn get(&self, wanted: Wanted) -> u32
        ensures { result ≡ head_of self.now wanted }
    {
        match wanted {
            Wanted::Program => self.program,
            Wanted::Macros => self.macros,
            Wanted::OfName(id) => match self.names.get(id.0 as usize) {
                Some(head) => *head,
                None => 0,
            },
        }
    }

    /// Prepends a part to `after` others. Returns how many of them are before the next one of its group.
    fn put(&mut self, resolutions: &[Result<NameId, NameKind>], kind: PartKind, after: u32) -> u32
        requires known { AreWithin resolutions.now (length self.old.names.items) }
        requires few { after < too_many }
        ensures { IsPut resolutions.now kind after self.old result self.new }
    {
        match kind {
            PartKind::Unnamed => after.saturating_sub(replace(&mut self.program, after + 1)),
            PartKind::Macro => after.saturating_sub(replace(&mut self.macros, after + 1)),
            PartKind::Named(name) => match resolved_at(resolutions, name.0 as usize) {
                Some(id) => after.saturating_sub(replace(
                    &mut self.names[id.0 as usize],
                    after + 1,
                )),
                None => 0,
            },
        }
    }
}

impl Links {
    /// The links of the parts, for a number of known names.
    pub fn new(
        alloc: Global,
        ranges: &[PartRange],
        resolutions: &[Result<NameId, NameKind>],
        names: usize,
    ) -> Result<Links, AllocError>
        requires few { length ranges.now < too_many }
        requires known { AreWithin resolutions.now names }
        ensures { IfOk result
            (λ links. AreLinked resolutions.now ranges.now links.skips.items links.heads) }
    {
        let mut skips = Vec::with_capacity(alloc, ranges.len())?;
        let mut heads = Heads::none(alloc, names)?;
        for i in (0..ranges.len()).rev() {
            let skip = heads.put(resolutions, ranges[i].kind, skips.len() as u32);
            skips.push(skip)?;
        }
        skips.reverse();
        Ok(Links { skips, heads })
    }
}
