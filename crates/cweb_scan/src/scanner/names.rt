// Occurrences of names, and their effects by context.
ghost use Rattle.std.specs.Prelude.{◌≡◌, IfOk, OnOk, if◌then◌else◌, length};

use crate::scanner::Scanner;
use cweb_files::Place;
use cweb_rules::{Context, End};
use cweb_store::{How, NameRef, is_prefix, is_squeezed, squeezed};
use std::alloc::AllocError;

impl Scanner {
    ghost use Rattle.cweb_scan.specs.Effects as spec;
    ghost use Rattle.cweb_scan.specs.State.{name_occurrence, add_name};
    ghost use Rattle.cweb_scan.specs.inner.ScanParts.{as_occurrence};
    ghost use Rattle.cweb_scan.specs.inner.PendingItems.{takes_opener};
    ghost use Rattle.cweb_scan.specs.inner.ReaderModel.{HasItemRoom};

    // Adds the occurrence of a name as it is spelled, and returns its index.
    fn add_spelled(&mut self, is_file: bool, name: &[u8]) -> Result<NameRef, AllocError>
        requires { HasItemRoom 2 self.old }
        ensures number { IfOk result (λ name. name.0 ≡ length self.old.contents.occurrences) }
        ensures ok { OnOk result (self.new ≡ add_name (as_occurrence is_file name.now) self.old) }
    {
        if is_prefix(name) {
            let (prefix, _) = name.split_at(name.len() - 3);
            return self.builder.occurrence(prefix, How::Prefix, is_file);
        }
        self.builder.occurrence(name, How::Full, is_file)
    }

    // Adds the occurrence of a name after its blanks are squeezed, and returns its index.
    fn add_occurrence(&mut self, is_file: bool, text: &[u8]) -> Result<NameRef, AllocError>
        requires { HasItemRoom 2 self.old }
        ensures number { IfOk result (λ name. name.0 ≡ length self.old.contents.occurrences) }
        ensures ok { OnOk result (self.new ≡ add_name (name_occurrence is_file text.now) self.old) }
    {
        if is_squeezed(text) {
            return self.add_spelled(is_file, text);
        }
        let name = squeezed(self.alloc, text)?;
        self.add_spelled(is_file, &name)
    }

    /// Ends a name that began at `begun`. `opens` says whether a part opener follows.
    pub fn end_name(
        &mut self,
        is_file: bool,
        text: &[u8],
        how: End,
        opens: bool,
        begun: Place,
    ) -> Result<(), AllocError>
        requires { HasItemRoom 2 self.old }
        ensures { OnOk result
            (self.new ≡ spec.occurrence is_file text.now how opens begun self.old) }
    {
        let name = self.add_occurrence(is_file, text)?;
        self.report_name_fault(how, begun)?;
        match self.context {
            Context::TeX | Context::Macro => self.open_name(name, opens),
            Context::CText => self.use_name(name, opens, begun),
            Context::Limbo | Context::Definition(_) => Ok(()),
        }
    }

    /// How many bytes of a part opener belong to the name before it: none in C text.
    pub fn opener_taken(&self, size: usize) -> usize
        ensures { result ≡ (if takes_opener self.now then size else 0) }
    {
        match self.context {
            Context::CText => 0,
            _ => size,
        }
    }
}
