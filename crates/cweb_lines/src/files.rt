// The names of opened files.
ghost use Rattle.std.specs.Prelude.{◌≡◌, ◌<◌, ◌+◌, ◌^◌, ◌++◌, ◌∷◌, [], length, OnOk, OnErr, IfErr};
ghost use Rattle.std.specs.Prelude.{vec_len, string_bytes, slice_index_or};

pub mod find;

use crate::stop::Stop;
use cweb_files::FileId;
use std::alloc::{AllocError, Global};

/// The files of a run in the order in which they were opened, each under the name that found it: the web, the change
/// file if there is one, then one file for each include line that opened one.
#[derive(Drop)]
pub struct FileNames {
    names: Vec<String>,
    ghost few: { vec_len names < 2 ^ 32 },
}

impl FileNames {
    ghost use Rattle.cweb_lines.specs.surface.OpenedFileNames.{opened_file_names};

    /// No file. It allocates nothing.
    pub fn new(alloc: Global) -> Self
        ensures { opened_file_names result ≡ [] }
    {
        FileNames {
            names: Vec::new(alloc),
        }
    }

    /// Appends the name of a file that was opened. Its `FileId` is the count before.
    pub fn push(&mut self, name: String) -> Result<(), Stop>
        requires { length (opened_file_names self.old) + 1 < 2 ^ 32 }
        ensures ok { OnOk result (opened_file_names self.new ≡ opened_file_names self.old
            ++ string_bytes name ∷ []) }
        ensures err { OnErr result (opened_file_names self.new ≡ opened_file_names self.old) }
        ensures memory { IfErr result (λ stop. stop ≡ Stop.Memory) }
    {
        self.names.push(name).map_err(|e| AllocError::from(e))?;
        Ok(())
    }

    /// The number of opened files. Each `FileId` is below it.
    pub fn count(&self) -> u32
        ensures { result ≡ length (opened_file_names self.now) }
    {
        self.names.len() as u32
    }

    /// The name under which a file was found.
    pub fn get(&self, id: FileId) -> &str
        requires { id.0 < length (opened_file_names self.now) }
        ensures { result.now ≡ slice_index_or (opened_file_names self.now) id.0 [] }
    {
        self.names[id.0 as usize].as_str()
    }
}
