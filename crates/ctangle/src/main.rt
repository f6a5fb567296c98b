//! `ctangle` writes the C files of a web, with a change file's changes:
//! `ctangle [options] webfile[.w] [{changefile[.ch]|-} [outfile[.c]]]`.
#![tactic(auto)]

ghost use Rattle.std.specs.Prelude.{◌≡◌, []};
ghost use Rattle.cweb_system.specs.Steps.{OnDisk};

use cweb_tools::{
    FileSystem, ProgramEnvironment, StdFolder, StdSink, as_slices, out_of_memory, read_args,
    read_inputs, tangle_in_folder,
};
use std::io::Write;
use std::process::ExitCode;
use std::rt::Env;

fn main(rt: HostRuntime) -> ExitCode {
    // Made before any other file is opened, so that no output gets the descriptor of a closed standard stream.
    let fs = StdFolder::with_streams(rt.alloc(), &rt);
    ExitCode::from(tangle(&rt, fs, rt.stderr()))
}

/// Runs with the arguments, the environment and the files of the program. Returns the exit status.
fn tangle<R: Env + AllocGlobal, F: FileSystem + Drop, L: Write + Drop>(rt: &R, fs: F, log: L) -> u8
    requires { OnDisk F.disk (λ see. (see fs).past ≡ []) }
{
    let mut log = StdSink::new(log);
    let env = ProgramEnvironment { runtime: rt };
    let Ok(words) = read_args(rt.alloc(), &env) else {
        return out_of_memory(&mut log);
    };
    let Ok(inputs) = read_inputs(rt.alloc(), &env) else {
        return out_of_memory(&mut log);
    };
    let Ok(words) = as_slices(rt.alloc(), &words) else {
        return out_of_memory(&mut log);
    };
    let inputs = inputs.as_ref().map(|folder| folder.as_str());
    let (status, _bins) = tangle_in_folder(rt.alloc(), &words, inputs, fs, &mut log);
    status
}
