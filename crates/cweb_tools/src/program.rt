// The arguments and the folder of included files, for all three programs.
ghost use Rattle.std.specs.Prelude.{◌≡◌, ◌<◌, ◌+◌, ◌^◌, ℕ, List, [], None, Some, All, IfOk, codes};
ghost use Rattle.std.specs.Prelude.{map, option_map, string_bytes, IsUtf8};
ghost use Rattle.cweb_tools.specs.inner.Variables.{Variables};
ghost use Rattle.cweb_tools.specs.Items.{stop_line};
ghost use Rattle.cweb_tools.specs.DeviceModels.{Logs};

use crate::environment::Environment;
use crate::writing::log_stop;
use cweb_lines::{Sink, Stop};
use std::alloc::{AllocError, Global};

/// The variable that names the folder in which included files are also searched.
const INPUTS: &str = "CWEBINPUTS";

/// The arguments after the program's name. If one isn't UTF-8, the list is empty, so that the run refuses it.
pub fn read_args<E: Environment>(alloc: Global, env: &E) -> Result<Vec<String>, AllocError>
    ensures valid { (seen : Variables) → E.known env.now ≡ Some seen → All IsUtf8 seen.args →
        IfOk result (λ words. map string_bytes words.items ≡ seen.args) }
    ensures invalid { (seen : Variables) → E.known env.now ≡ Some seen →
        (All IsUtf8 seen.args → ⊥) → IfOk result (λ words. words.items ≡ []) }
{
    let mut words = Vec::new(alloc);
    'words: for index in 0..usize::MAX {
        let Some(bytes) = env.argument(alloc, index)? else {
            return Ok(words);
        };
        let Ok(word) = String::from_utf8(bytes) else {
            return Ok(Vec::new(alloc));
        };
        words.push(word)?;
    }
    Err(AllocError)
}

/// The arguments as slices. That std reads them as they are is only tested.
pub fn as_slices<'a>(alloc: Global, words: &'a [String]) -> Result<Vec<&'a str>, AllocError>
    ensures { IfOk result (λ slices.
        map (λ slice. slice.now) slices.items ≡ map string_bytes words.now) }
{
    let mut slices = Vec::new(alloc);
    for word in words {
        slices.push(word.as_str())?;
    }
    Ok(slices)
}

/// The folder of included files. A value that isn't UTF-8 counts as none.
pub fn read_inputs<E: Environment>(alloc: Global, env: &E) -> Result<Option<String>, AllocError>
    ensures valid { (seen : Variables) → E.known env.now ≡ Some seen →
        IfOk result (λ folder. (text : List ℕ) → seen.value (codes "CWEBINPUTS") ≡ Some text →
        IsUtf8 text → option_map string_bytes folder ≡ Some text) }
    ensures invalid { (seen : Variables) → E.known env.now ≡ Some seen →
        IfOk result (λ folder. (text : List ℕ) → seen.value (codes "CWEBINPUTS") ≡ Some text →
        (IsUtf8 text → ⊥) → folder ≡ None) }
    ensures unset { (seen : Variables) → E.known env.now ≡ Some seen → IfOk result (λ folder.
        seen.value (codes "CWEBINPUTS") ≡ None → folder ≡ None) }
{
    let Some(bytes) = env.variable(alloc, INPUTS)? else {
        return Ok(None);
    };
    match String::from_utf8(bytes) {
        Ok(folder) => Ok(Some(folder)),
        Err(_) => Ok(None),
    }
}

/// Logs that there was no memory for the arguments, and returns the exit status.
pub fn out_of_memory<L: Sink>(log: &mut L) -> u8
    requires { (L.model log.old).failed + 1 < 2 ^ 64 }
    ensures status { result ≡ 1 }
    ensures logs { Logs (stop_line Stop.Memory [])
        (L.model log.old) (L.model log.new) }
{
    log_stop(log, Stop::Memory, "")
}
