// The calls to a file system in memory.
use crate::memory_folder::log::Change;
use crate::memory_folder::{MemoryFile, MemoryFolder};
use cweb_system::{FileFault, FileKey, FileSystem, Node};

impl FileSystem for MemoryFolder {
    ghost use Rattle.std.specs.Prelude.{Some};
    ghost use Rattle.cweb_system_tests.specs.inner.Memory.{memory_disk, handle_key, handle_name, handle_position};

    type File = MemoryFile;

    ghost disk = { Some memory_disk };

    ghost key = { handle_key };

    ghost opened_as = { handle_name };

    ghost position = { handle_position };

    fn look(&self, path: &str) -> Option<Node> {
        self.node_at(self.layout.place(path))
    }

    fn follow(&self, path: &str) -> Option<Node> {
        match self.followed(self.layout.place(path)) {
            Some(Node::Unknown(_) | Node::Link) => None,
            found => found,
        }
    }

    fn key_of(&self, file: &MemoryFile) -> Result<FileKey, FileFault> {
        Ok(file.key)
    }

    fn lock(&self, _file: &MemoryFile) -> Result<(), FileFault> {
        Ok(())
    }

    fn open(&self, path: &str) -> Result<MemoryFile, FileFault> {
        let key = match self.followed(self.layout.place(path)) {
            Some(Node::File(key, _)) => key,
            Some(Node::Unknown(fault)) => return Err(fault),
            Some(Node::Link) => return Err(FileFault::Other),
            _ => return Err(FileFault::NotFound),
        };
        let Ok(name) = String::from_str(self.alloc, path) else {
            return Err(FileFault::Memory);
        };
        Ok(MemoryFile {
            key,
            name,
            position: 0,
            is_writable: false,
        })
    }

    /// Reads one byte.
    fn read(&self, file: &mut MemoryFile, piece: &mut [u8]) -> Result<usize, FileFault> {
        if piece.is_empty() {
            return Ok(0);
        }
        let Some(byte) = self.byte_at(file.key, file.position) else {
            return Ok(0);
        };
        piece[0] = byte;
        file.position += 1;
        Ok(1)
    }

    fn open_device(&self, _path: &str) -> Result<MemoryFile, FileFault> {
        Err(FileFault::NotFound)
    }

    fn create(&mut self, path: &str, mode: Option<u32>) -> Result<Option<MemoryFile>, FileFault> {
        let new = match self.new_file(path) {
            Ok(Some(new)) => new,
            Ok(None) => return Ok(None),
            Err(fault) => return Err(self.failing(fault)),
        };
        let key = new.key;
        let mode = mode.unwrap_or(self.layout.new_mode);
        self.make(Change::Create(new.at, key, mode))?;
        Ok(Some(MemoryFile {
            key,
            name: String::new(self.alloc),
            position: 0,
            is_writable: true,
        }))
    }

    /// Writes one byte.
    fn write(&mut self, file: &mut MemoryFile, piece: &[u8]) -> Result<usize, FileFault> {
        if !file.is_writable {
            return Err(self.failing(FileFault::Other));
        }
        if piece.is_empty() {
            return Ok(0);
        }
        self.make(Change::Append(file.key, piece[0]))?;
        Ok(1)
    }

    fn set_mode(&mut self, file: &MemoryFile, mode: u32) -> Result<(), FileFault> {
        self.make(Change::SetMode(file.key, mode))
    }

    fn rename(&mut self, from: &str, to: &str) -> Result<(), FileFault> {
        match self.renaming(from, to) {
            Ok(Some(it)) => self.make(Change::Move(it.old, it.new, it.node)),
            Ok(None) => Ok(()),
            Err(fault) => Err(self.failing(fault)),
        }
    }

    fn remove(&mut self, path: &str) -> Result<(), FileFault> {
        match self.removable(path) {
            Ok(at) => self.make(Change::Remove(at)),
            Err(fault) => Err(self.failing(fault)),
        }
    }
}
