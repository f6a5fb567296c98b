// The arguments and the variables of a run.
ghost use Rattle.std.specs.Prelude.{◌≡◌, Option, None, Some, IfOk, option_map, slice_get};
ghost use Rattle.cweb_tools.specs.inner.Variables.{Variables};

use std::alloc::{AllocError, Global};
use std::env::FillError;
use std::rt::Env;

/// How long a value may be at the first try. If it is longer, the buffer is doubled.
const SIZE: usize = 256;

/// How often a buffer can be doubled.
const TURNS: u32 = 56;

/// The arguments and the variables of a run, as bytes.
pub trait Environment {
    /// What they are, if they are observable.
    ghost known: { Self → Option Variables };

    /// The argument at an index, if there is one.
    fn argument(&self, alloc: Global, index: usize) -> Result<Option<Vec<u8>>, AllocError>
        ensures { (seen : Variables) → known self.now ≡ Some seen → IfOk result (λ found.
            option_map (λ bytes. bytes.items) found ≡ slice_get seen.args index) };

    /// The value of a variable, if it is set.
    fn variable(&self, alloc: Global, name: &str) -> Result<Option<Vec<u8>>, AllocError>
        ensures { (seen : Variables) → known self.now ≡ Some seen → IfOk result (λ found.
            option_map (λ bytes. bytes.items) found ≡ seen.value name.now) };
}

/// The arguments and the variables of the program.
#[derive(Drop)]
pub struct ProgramEnvironment<'a, R: Env> {
    pub runtime: &'a R,
}

impl<R: Env> Environment for ProgramEnvironment<'_, R> {
    ghost known = { λ _. None };

    /// The system's argument 0 is the program's name, which may be any bytes.
    fn argument(&self, alloc: Global, index: usize) -> Result<Option<Vec<u8>>, AllocError> {
        match index.checked_add(1) {
            Some(number) => read(alloc, |buffer| self.runtime.arg(number, buffer)),
            None => Ok(None),
        }
    }

    fn variable(&self, alloc: Global, name: &str) -> Result<Option<Vec<u8>>, AllocError> {
        read(alloc, |buffer| self.runtime.var(name, buffer))
    }
}

/// Reads a value into a buffer that is large enough.
fn read<F: Fn(&mut [u8]) -> Result<usize, FillError>>(
    alloc: Global,
    fill: F,
) -> Result<Option<Vec<u8>>, AllocError>
    requires { F.IsAlwaysCallable fill }
{
    let mut size = SIZE;
    for _ in 0..TURNS {
        let mut buffer = vec![in alloc; 0u8; size]?;
        match fill(buffer.as_mut_slice()) {
            Ok(len) => {
                buffer.truncate(len);
                return Ok(Some(buffer));
            }
            Err(FillError::NotPresent) => return Ok(None),
            Err(FillError::TooLong) => size = size.saturating_mul(2),
        }
    }
    Err(AllocError)
}
