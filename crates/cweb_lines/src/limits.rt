// The limits on the input of a run.

/// The maximum length of a line in bytes, without its newline.
pub const LINE_LENGTH: usize = 1_048_575;

/// The maximum number of lines that are taken from all files.
pub const LINES: u32 = 16_777_216;

/// The maximum number of bytes that are taken from all files, newlines included.
pub const BYTES: u64 = 1_073_741_824;

/// The maximum number of nested open files, including the web.
pub const OPEN_FILES: usize = 20;
