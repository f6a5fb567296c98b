// Takes the bytes of a line, step by step.
ghost use Rattle.std.specs.Prelude.{◌≡◌, ◌≤◌, ◌<◌, ◌+◌, ◌*◌, IfOk, OnOk, length, true};
ghost use Rattle.cweb_store.specs.surface.Tokens.{too_many};

use crate::reader::Reader;
use crate::rest::Rest;
use std::alloc::AllocError;

impl Reader {
    ghost use Rattle.cweb_rules.specs.inner.LineItems.{IsLine};
    ghost use Rattle.cweb_scan.specs.inner.ReaderModel.{cost, is_pending, Between, TakesBytes, MakesProgress};

    // One step: a run of plain C text and the lexeme after it. Returns its size.
    fn take_step(&mut self, rest: Rest<'_>) -> Result<usize, AllocError>
        requires between { self.old.item ≡ Between }
        requires room { cost self.old + 3 * length rest.bytes.now + 8 < too_many }
        ensures { IfOk result (λ n. MakesProgress n rest.entry.bytes.now self.old self.new) }
    {
        let plain = self.scanner.take_plain(rest.bytes)?;
        let (_, after) = rest.bytes.split_at(plain);
        if after.is_empty() {
            return Ok(plain);
        }
        let size = self.take_between(Rest { bytes: after })?;
        Ok(plain + size)
    }

    /// Takes the bytes of a line. Its newline is taken when the next line begins.
    pub(crate) fn take_bytes(&mut self, line: &[u8]) -> Result<(), AllocError>
        requires clean { IsLine line.now }
        requires last { is_pending self.old.item ≡ true → length line.now ≡ 0 }
        requires room { cost self.old + 3 * length line.now + 8 < too_many }
        ensures bytes { OnOk result (TakesBytes line.now self.old self.new) }
        ensures cost { OnOk result (cost self.new ≤ cost self.old + 3 * length line.now) }
    {
        let mut rest = line;
        'turns: while !rest.is_empty() {
            let size = self.take_step(Rest { bytes: rest })?;
            let (_, after) = rest.split_at(size);
            rest = after;
        }
        Ok(())
    }
}
