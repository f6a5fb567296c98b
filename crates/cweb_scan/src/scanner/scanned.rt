// The result of a scan.
ghost use Rattle.std.specs.Prelude.{◌≡◌, IfOk};
ghost use Rattle.cweb_scan.specs.inner.ReaderModel.{HasItemRoom};
ghost use Rattle.cweb_scan.specs.inner.ScanParts.{scanned_of};
ghost use Rattle.cweb_scan.specs.surface.Scan.{scanned_model};

use crate::scanner::Scanner;
use cweb_rules::ScanFault;
use cweb_store::Store;
use std::alloc::AllocError;

/// The result of a scan. Faults are in the order of their items. `starred` has the numbers of the starred sections.
pub struct Scanned {
    pub store: Store,
    pub faults: Vec<ScanFault>,
    pub sections: u32,
    pub starred: Vec<u32>,
}

impl Drop for Scanned {
    fn drop(self) {
        let Self {
            store: _,
            faults: _,
            sections: _,
            starred: _,
        } = self;
    }
}

impl Scanner {
    /// The result for the whole source.
    pub fn scanned(mut self) -> Result<Scanned, AllocError>
        requires { HasItemRoom 1 self }
        ensures { IfOk result (λ made. scanned_model made ≡ scanned_of self) }
    {
        self.leave()?;
        let Scanner {
            alloc: _,
            context: _,
            builder,
            faults,
            sections,
            starred,
            here: _,
            folded: _,
            directive: _,
            solid: _,
        } = self;
        let store = builder.finish()?;
        Ok(Scanned {
            store,
            faults,
            sections,
            starred,
        })
    }
}
