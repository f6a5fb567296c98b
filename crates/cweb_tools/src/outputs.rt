// Writes the outputs of a run in order.
ghost use Rattle.std.specs.Prelude.{◌≡◌, ◌<◌, ◌+◌, ◌^◌, ◌∷◌, [], length, All, IfErr, OnErr, OnOk};
ghost use Rattle.cweb_files.specs.Sinks.{changed, failing, without_draft, written};
ghost use Rattle.cweb_lines.specs.surface.OpenedFileNames.{opened_file_names};
ghost use Rattle.cweb_scan.specs.surface.Scan.{IsMarkBelow};
ghost use Rattle.cweb_out.specs.surface.Outputs.{output_name_at};
ghost use Rattle.cweb_out.specs.Printing.{setting, file};
ghost use Rattle.cweb_tools.specs.inner.Does.{SinkCountsFit, ending_of, DoesInOut, DoesInBoth};
ghost use Rattle.cweb_tools.specs.Acts.{writes};
ghost use Rattle.cweb_tools.specs.inner.Tangle.{IsReady, StaysReady, output_ending, file_at, planned_files, left_in};
ghost use Rattle.cweb_tools.specs.Script.{output_acts, outputs_acts};

use crate::log_text::LogLine;
use crate::saying::say;
use cweb_lines::{FileNames, Sink, SinkFault, Stop};
use cweb_out::{BinFault, Bins, Expander, OutBuffer, Printer};

/// Why the writing of outputs stopped, and at which output.
#[derive(Clone, Copy)]
pub(crate) struct Failed {
    pub(crate) stop: Stop,
    pub(crate) output: u32,
}

/// Writes all outputs in order, up to the first failure.
pub(crate) fn write_outputs<B: Bins, L: Sink>(
    progress: bool,
    names: &FileNames,
    expander: &mut Expander<'_>,
    buffer: &mut OutBuffer,
    bins: &mut B,
    log: &mut L,
) -> Result<(), Failed>
    requires ready { IsReady names.now expander.old }
    requires counts { SinkCountsFit (B.model bins.old).failed (L.model log.old).failed }
    ensures known { IfErr result (λ failed. failed.output < length expander.old.plan.now.outputs) }
    ensures does { DoesInBoth (outputs_acts progress (planned_files names.now expander.old))
        (output_ending expander.old.plan.now.outputs result)
        (B.model bins.old) (B.model bins.new)
        (L.model log.old) (L.model log.new) }
{
    let plan = expander.plan;
    'outputs: for output in 0..plan.outputs() {
        if let Err(stop) = write_output(progress, names, expander, buffer, output, bins, log) {
            return Err(Failed { stop, output });
        }
    }
    Ok(())
}

/// Logs that an output is begun, and writes it.
fn write_output<B: Bins, L: Sink>(
    progress: bool,
    names: &FileNames,
    expander: &mut Expander<'_>,
    buffer: &mut OutBuffer,
    output: u32,
    bins: &mut B,
    log: &mut L,
) -> Result<(), Stop>
    requires ready { IsReady names.now expander.old }
    requires output { output < length expander.old.plan.now.outputs }
    requires counts { SinkCountsFit (B.model bins.old).failed (L.model log.old).failed }
    ensures stays { StaysReady expander.old expander.new }
    ensures does { DoesInBoth (output_acts progress (file_at names.now expander.old output))
        (ending_of (output_name_at expander.old.plan.now.outputs output) result)
        (B.model bins.old) (B.model bins.new)
        (L.model log.old) (L.model log.new) }
{
    let name = expander.plan.output_name(output);
    if let Err(_) = say(progress, LogLine::Writing(name), log) {
        return Err(Stop::LogFault);
    }
    write_file(names, expander, buffer, output, bins)
}

/// Begins an output, prints it and commits it. After a write fault it is abandoned.
fn write_file<B: Bins>(
    names: &FileNames,
    expander: &mut Expander<'_>,
    buffer: &mut OutBuffer,
    output: u32,
    bins: &mut B,
) -> Result<(), Stop>
    requires ready { IsReady names.now expander.old }
    requires output { output < length expander.old.plan.now.outputs }
    requires count { (B.model bins.old).failed + 1 < 2 ^ 64 }
    ensures stays { StaysReady expander.old expander.new }
    ensures does { DoesInOut
        (writes (output_name_at expander.old.plan.now.outputs output)
        (file_at names.now expander.old output).bytes ∷ [])
        (ending_of (output_name_at expander.old.plan.now.outputs output) result)
        (B.model bins.old) (B.model bins.new) }
{
    match bins.start_file(expander.plan.output_name(output)) {
        Ok(()) => {}
        Err(BinFault::Memory) => return Err(Stop::Memory),
        Err(BinFault::Device) => return Err(Stop::OutNotOpened),
    }
    expander.restart(output);
    if let Err(_) = print_all(names, expander, buffer, bins) {
        bins.abandon_file();
        return Err(Stop::WriteFault);
    }
    if let Err(_) = bins.commit_file() {
        return Err(Stop::WriteFault);
    }
    Ok(())
}

/// Prints the remaining tokens of an output as a whole file, through the buffer, which is cleared first.
fn print_all<W: Sink>(
    names: &FileNames,
    expander: &mut Expander<'_>,
    buffer: &mut OutBuffer,
    out: &mut W,
) -> Result<(), SinkFault>
    requires ready { IsReady names.now expander.old }
    requires left { All (IsMarkBelow (length (opened_file_names names.now)))
        (left_in expander.old) }
    requires count { (W.model out.old).failed + 1 < 2 ^ 64 }
    ensures stays { StaysReady expander.old expander.new }
    ensures prints { OnOk result (W.model out.new
        ≡ written (file (setting expander.old.store.now (opened_file_names names.now))
        (left_in expander.old)) (W.model out.old)) }
    ensures err { OnErr result
        (changed without_draft (W.model out.new) ≡ failing without_draft (W.model out.old)) }
{
    let mut printer = Printer::new(expander.store, names);
    buffer.clear();
    'tokens: loop {
        expander.append(&mut printer, buffer);
        let Some(token) = expander.next() else {
            break;
        };
        printer.append(token, buffer, out)?;
    }
    printer.finish(buffer, out)
}
