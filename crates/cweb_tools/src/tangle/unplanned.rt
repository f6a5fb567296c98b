// The end of a run of `ctangle` without a plan.
ghost use Rattle.std.specs.Prelude.{◌<◌, ◌+◌, ◌^◌, ◌∷◌, IfSome};
ghost use Rattle.cweb_scan.specs.surface.Scan.{scanned_model};
ghost use Rattle.cweb_out.specs.Outputs.{planned};
ghost use Rattle.cweb_out.specs.surface.Outputs.{IsExpectedFault};
ghost use Rattle.cweb_tools.specs.Items.{refusal_message};
ghost use Rattle.cweb_tools.specs.Acts.{plans};
ghost use Rattle.cweb_tools.specs.inner.Does.{EndsInLog};
ghost use Rattle.cweb_tools.specs.Script.{planned_acts, refused};
ghost use Rattle.cweb_tools.specs.Tangle.{numbers_of, planning};
ghost use Rattle.cweb_tools.specs.inner.Tangle.{fault_count, status_by, faults_of, files_of};
ghost use Rattle.cweb_tools.specs.inner.LogText.{refusal_in};

use crate::saying::say_end;
use crate::web::Web;
use crate::writing::{log_stop, write_log};
use crate::{LogText, Shown};
use cweb_lines::{Sink, Stop};
use cweb_out::PlanFault;

/// Ends a run whose outputs could not be planned: an allocation failed, or the plan was refused.
pub fn tangle_unplanned<L: Sink>(
    shown: Shown,
    main: &str,
    web: Web<'_>,
    fault: PlanFault,
    log: &mut L,
) -> u8
    requires expected { IsExpectedFault (planned web.scanned.now.store main.now) fault }
    requires count { (L.model log.old).failed + 1 < 2 ^ 64 }
    ensures closes { EndsInLog
        (plans ∷ planned_acts shown
        (numbers_of (scanned_model web.entry.scanned.now)) (fault_count (faults_of web.entry))
        (planning web.entry.scanned.now.store (files_of web.entry) main.now))
        (status_by (fault_count (faults_of web.entry))
        (planning web.entry.scanned.now.store (files_of web.entry) main.now))
        (L.model log.old) (L.model log.new) result }
    // Any fault but a failed allocation is reported as such.
    ensures logged { IfSome (refusal_in fault) (λ refusal. EndsInLog
        (planned_acts shown
        (numbers_of (scanned_model web.entry.scanned.now)) (fault_count (faults_of web.entry))
        (refused (refusal_message web.entry.scanned.now.store main.now refusal)))
        1 (L.model log.old) (L.model log.new) result) }
{
    if let PlanFault::Memory = fault {
        return log_stop(log, Stop::Memory, "");
    }
    // Why there is no plan is one more fault. Nothing is written.
    if let Err(_) = write_log(log, LogText::unplanned(web.store(), &fault, main)) {
        return 1;
    }
    let count = web.fault_count() + 1;
    let _ = say_end(shown, web.scanned, count, false, log);
    1
}
