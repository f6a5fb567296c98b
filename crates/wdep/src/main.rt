//! `wdep` prints which files `ctangle` makes from a web, and from which files, as a compiler's depfile:
//! `wdep [options] webfile[.w] [{changefile[.ch]|-} [outfile[.c]]]`.
#![tactic(auto)]

ghost use Rattle.std.specs.Prelude.{◌≡◌, []};
ghost use Rattle.cweb_system.specs.Steps.{OnDisk};

use cweb_tools::{
    FileSystem, ProgramEnvironment, StdFolder, StdSink, about_wdep, as_slices, depend_in_folder,
    out_of_memory, read_args, read_inputs, write_about,
};
use std::io::Write;
use std::process::ExitCode;
use std::rt::Env;

fn main(rt: HostRuntime) -> ExitCode {
    ExitCode::from(depend(
        &rt,
        StdFolder::new(rt.alloc(), &rt),
        rt.stdout(),
        rt.stderr(),
    ))
}

/// Runs with the arguments, the environment and the files of the program. Returns the exit status.
fn depend<R: Env + AllocGlobal, F: FileSystem + Drop, W: Write + Drop, L: Write + Drop>(
    rt: &R,
    fs: F,
    out: W,
    log: L,
) -> u8
    requires { OnDisk F.disk (λ see. (see fs).past ≡ []) }
{
    let mut log = StdSink::new(log);
    let env = ProgramEnvironment { runtime: rt };
    let Ok(words) = read_args(rt.alloc(), &env) else {
        return out_of_memory(&mut log);
    };
    let Ok(inputs) = read_inputs(rt.alloc(), &env) else {
        return out_of_memory(&mut log);
    };
    let Ok(words) = as_slices(rt.alloc(), &words) else {
        return out_of_memory(&mut log);
    };
    let inputs = inputs.as_ref().map(|folder| folder.as_str());
    let mut out = StdSink::new(out);
    if let Some(text) = about_wdep(&words) {
        return write_about(text, &mut out, &mut log);
    }
    depend_in_folder(rt.alloc(), &words, inputs, fs, &mut out, &mut log)
}
