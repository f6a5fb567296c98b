// The merged lines of a web, one after another.
ghost use Rattle.std.specs.Prelude.{◌≡◌, ◌≤◌, ◌<◌, ◌+◌, ◌^◌, ℕ, List, length, IfOk, Ok, Err, IfErr};
ghost use Rattle.std.specs.Prelude.{IfSome, None, Some, All};
ghost use Rattle.std.specs.Option.{option_copied};
ghost use Rattle.cweb_files.specs.Shelves.{Observed};
ghost use Rattle.cweb_lines.specs.Include.{web_at, change_at};
ghost use Rattle.cweb_lines.specs.inner.Ahead.{IsSpanIn, span_bytes};
ghost use Rattle.cweb_lines.specs.surface.OpenedFileNames.{opened_file_names};
ghost use Rattle.cweb_lines.specs.surface.OpenSources.{StartStops, files_named};
ghost use Rattle.cweb_lines.specs.surface.MergerCalls.{AreReadersKnown};

pub mod ahead;

use crate::counters::TakenCounters;
use crate::files::find::{fetch_either, find_change, owned};
use crate::merge_state::MergeState;
use crate::open::{first_stage, open_change, open_source};
use crate::open_source::stack::Stack;
use crate::step::Turn;
use crate::step::turning::take_turn;
use crate::{FileNames, LineSpan, SourceFault, Stop};
use cweb_files::{Place, Shelf};
use std::alloc::Global;

/// A web that is being merged. Each call gets the shelf as the previous call left it.
pub struct Merger<S: Shelf> {
    pub(crate) run: MergeState<S::R>,
}

impl<S: Shelf> Drop for Merger<S> {
    fn drop(self) {
        let Self { run: _ } = self;
    }
}

impl<S: Shelf> Merger<S> {
    ghost use Rattle.cweb_lines.specs.surface.MergerCalls.{to_come, so_far, stop_in, HasEnded, NextLine, EmitsLine};
    ghost use Rattle.cweb_lines.specs.surface.MergerCalls.{Grows, LeavesMerger, ReportsReadFailures, StopsThere};
    ghost use Rattle.cweb_lines.specs.surface.MergerCalls.{BeginsMerge, StopsAtStart, KnowsReaders, StaysKnown};

    /// Opens the web under its name, else under `second`, and the change file if one is named. It stops only if one is
    /// missing or memory is refused. It reads nothing. Included files may also be in the folder `inputs`.
    pub fn start(
        alloc: Global,
        shelf: &mut S,
        web: &str,
        second: Option<&str>,
        change: Option<&str>,
        inputs: Option<&str>,
    ) -> Result<Self, Stop>
        ensures same { S.model shelf.new ≡ S.model shelf.old }
        ensures running { IfOk result (λ merger. stop_in merger ≡ None) }
        ensures begins { Observed (S.model shelf.old) (λ seen. IfOk result (λ merger. BeginsMerge
            (record { texts = seen.texts; inputs = option_copied inputs.entry })
            (web_at seen.texts web.now (option_copied second.entry))
            (change_at seen.texts (option_copied change.entry))
            (so_far merger) (to_come seen merger))) }
        ensures stops { Observed (S.model shelf.old) (λ seen.
            IfErr result (λ stop. StopsAtStart stop
            (web_at seen.texts web.now (option_copied second.entry))
            (change_at seen.texts (option_copied change.entry)))) }
        ensures readers { Observed (S.model shelf.old) (λ seen.
            IfOk result (λ merger. KnowsReaders seen merger)) }
        ensures only { IfErr result (λ stop. StartStops stop) }
    {
        let inputs = owned(alloc, inputs)?;
        let second = owned(alloc, second)?;
        let Some(web) = fetch_either(shelf, String::from_str(alloc, web)?, second)? else {
            return Err(Stop::WebNotOpened);
        };
        let Some(change) = find_change(alloc, shelf, change)? else {
            return Err(Stop::ChangeNotOpened);
        };
        let mut names = FileNames::new(alloc);
        let web = open_source(alloc, &mut names, web, 1, true)?;
        let change = open_change(alloc, &mut names, change)?;
        Ok(Merger {
            run: MergeState {
                alloc,
                inputs,
                stack: Stack::new(web),
                stage: first_stage(&change),
                change,
                first: Vec::new(alloc),
                limits: TakenCounters::new(),
                faults: Vec::new(alloc),
                names,
                stopped: None,
            },
        })
    }

    /// The next merged line, without its newline, and its place. At the end it is `None`, and stays so. After a stop
    /// each further call returns it and leaves `line` empty. Faults and file names are appended in order.
    pub fn next_line(&mut self, shelf: &mut S, line: &mut Vec<u8>) -> Result<Option<Place>, Stop>
        requires { (S.model shelf.old).failed + 1 < 2 ^ 64 }
        ensures grows { Grows (so_far self.old) (so_far self.new) }
        ensures leaves { LeavesMerger result line.new.items self.new }

        // the next line, or none
        ensures next { Observed (S.model shelf.old) (λ seen.
            IfOk result (λ place. NextLine place line.new.items (so_far self.old) (so_far self.new)
            (to_come seen self.old) (to_come seen self.new))) }
        ensures emitted { IfOk result (λ place. IfSome place (λ p. EmitsLine p line.new.items
            (so_far self.old) (so_far self.new))) }
        ensures ended { stop_in self.old ≡ None → HasEnded self.old →
            (result ≡ Ok None) × (self.new ≡ self.old) × (shelf.new ≡ shelf.old) }

        // why there is no result
        ensures blames { stop_in self.old ≡ None →
            ReportsReadFailures (S.model shelf.old) (S.model shelf.new) result }
        ensures stops { Observed (S.model shelf.old) (λ seen. stop_in self.old ≡ None →
            IfErr result (λ stop. StopsThere stop (so_far self.old) (so_far self.new)
            (to_come seen self.old))) }
        ensures known { Observed (S.model shelf.old) (λ seen. KnowsReaders seen self.old →
            StaysKnown seen (S.model shelf.old) (S.model shelf.new) self.old self.new result) }
        ensures again { IfSome (stop_in self.old) (λ stop.
            (result ≡ Err stop) × (self.new ≡ self.old) × (shelf.new ≡ shelf.old)) }
    {
        if let Some(stop) = self.run.stopped {
            line.clear();
            return Err(stop);
        }
        'turns: loop {
            let turn = match take_turn(shelf, &mut self.run, line) {
                Ok(turn) => turn,
                Err(stop) => {
                    line.clear();
                    self.run.stopped = Some(stop);
                    return Err(stop);
                }
            };
            match turn {
                Turn::Emitted(place) => return Ok(Some(place)),
                Turn::On => {}
                Turn::Ended => {
                    line.clear();
                    return Ok(None);
                }
            }
        }
    }

    /// The bytes of a line that was looked at, while the merger is unchanged.
    #[inline(always)]
    pub fn bytes_of(&self, line: LineSpan) -> &[u8]
        requires { IsSpanIn self.now.run line }
        ensures { result.now ≡ span_bytes self.now.run line }
    {
        match &self.run.stack.texts[self.run.stack.depth - 1] {
            Some(text) => &text.source.buffer[line.from..line.to],
            None => &[],
        }
    }

    /// The faults so far, in the order in which they occurred. Each file in them has been opened.
    pub fn faults(&self) -> &[SourceFault]
        ensures value { result.now ≡ (so_far self.now).faults }
        ensures known { All (λ fault. fault.place.file.0 < length (so_far self.now).names)
            result.now }
    {
        &self.run.faults
    }

    /// The files that were opened so far.
    pub fn names(&self) -> &FileNames
        ensures { opened_file_names result.now ≡ (so_far self.now).names }
    {
        &self.run.names
    }

    /// The stop that each further call returns. A file in it has been opened.
    pub fn stopped(&self) -> Option<Stop>
        ensures stop { result ≡ stop_in self.now }
        ensures named { IfSome result (λ stop. files_named stop ≤ length (so_far self.now).names) }
    {
        self.run.stopped
    }

    /// Stops the merger because memory was refused to its caller. Returns that stop, or an earlier one if it has one.
    pub fn halt(&mut self) -> Stop
        ensures stop { stop_in self.old ≡ None → result ≡ Stop.Memory }
        ensures kept { stop_in self.new ≡ Some result }
        ensures again { IfSome (stop_in self.old) (λ stop.
            (result ≡ stop) × (self.new ≡ self.old)) }
        ensures readers { (opened_as : S.R → List ℕ) →
            AreReadersKnown opened_as self.old.run → AreReadersKnown opened_as self.new.run }
        ensures so_far { so_far self.new ≡ so_far self.old }
        ensures named { files_named result ≤ length (so_far self.new).names }
    {
        if let Some(earlier) = self.run.stopped {
            return earlier;
        }
        self.run.stopped = Some(Stop::Memory);
        Stop::Memory
    }
}
