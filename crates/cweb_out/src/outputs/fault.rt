// Why there is no plan.
ghost use Rattle.std.specs.Prelude.{◌≡◌};
ghost use Rattle.cweb_out.specs.declared.outputs.fault.PlanFault.TheVariants.{Memory};

use cweb_store::NameId;
use std::alloc::AllocError;

/// The first fault, in the order in which `plan` looks for them.
#[derive(Drop)]
pub enum PlanFault {
    /// The cycle of the first output whose expansion doesn't end. Each name uses the next; the last equals the first.
    Cycle(Vec<NameId>),
    /// This file name equals the main file's name.
    SameName(NameId),
    /// No file can have this output's name. `None` is the main file.
    BadName(Option<NameId>),
    Memory,
}

impl From<AllocError> for PlanFault {
    ghost from_gives = { λ _ e. e ≡ Memory };

    fn from(_: AllocError) -> Self {
        PlanFault::Memory
    }
}
