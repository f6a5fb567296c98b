// Reading and writing in pieces of any size.
use cweb_system::{FileFault, FileSystem};
use std::alloc::Global;

/// No file of the comparison becomes as long.
const WHOLE: usize = 100_000;

/// Reads up to `count` bytes.
pub fn read_up_to<F: FileSystem>(
    alloc: Global,
    fs: &F,
    file: &mut F::File,
    count: usize,
) -> Result<Vec<u8>, FileFault> {
    let mut bytes = Vec::new(alloc);
    for _ in 0..count {
        let mut piece = [0u8; 1];
        if fs.read(file, &mut piece)? == 0 {
            break;
        }
        bytes.push(piece[0]).map_err(|_| FileFault::Memory)?;
    }
    Ok(bytes)
}

/// The contents of what a path leads to.
pub fn contents<F: FileSystem>(alloc: Global, fs: &F, path: &str) -> Result<Vec<u8>, FileFault> {
    let mut file = fs.open(path)?;
    read_up_to(alloc, fs, &mut file, WHOLE)
}

/// Writes all bytes.
pub fn write_all<F: FileSystem>(
    fs: &mut F,
    file: &mut F::File,
    bytes: &[u8],
) -> Result<(), FileFault> {
    let mut rest = bytes;
    for _ in 0..bytes.len() {
        let taken = fs.write(file, rest)?;
        rest = rest.get(taken..).unwrap_or_default();
        if rest.is_empty() {
            break;
        }
    }
    Ok(())
}

/// Creates a file with these contents.
pub fn put_file<F: FileSystem>(fs: &mut F, path: &str, bytes: &[u8]) -> Result<(), FileFault> {
    match fs.create(path, None)? {
        Some(mut file) => write_all(fs, &mut file, bytes),
        None => Err(FileFault::Other),
    }
}
