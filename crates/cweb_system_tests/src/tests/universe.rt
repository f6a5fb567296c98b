// The files, links and paths of the comparison.

/// What is at a path at first.
pub enum Entry {
    Folder,
    /// A regular file with these contents.
    File(&'static str),
    /// Another name of this file.
    HardLink(&'static str),
    /// A link with this text, and the path that it leads to.
    Link(&'static str, &'static str),
    /// It can't be looked up.
    Unknown,
}

/// The folder that may refuse changes.
pub const LOCKED: &str = "locked";

/// A link to a folder, which is never changed.
pub const FOLDER_LINK: &str = "l";

/// A link to itself, which is never changed.
pub const LOOP: &str = "o";

/// A file with the permissions of new files.
pub const NEW_FILE: &str = "a";

pub const ENTRIES: &[(&str, Entry)] = &[
    ("d", Entry::Folder),
    (LOCKED, Entry::Folder),
    (NEW_FILE, Entry::File("first")),
    ("h", Entry::File("hard")),
    ("fixed", Entry::File("")),
    ("d/h", Entry::HardLink("h")),
    ("locked/h", Entry::HardLink("h")),
    ("locked/i", Entry::HardLink("h")),
    (FOLDER_LINK, Entry::Link("d", "d")),
    (LOOP, Entry::Link(LOOP, LOOP)),
    ("m", Entry::Link("a", "a")),
    ("n", Entry::Link("missing/x", "missing/x")),
    ("d/m", Entry::Link("../l/a", "d/a")),
    ("d/n", Entry::Link("../locked/h", "locked/h")),
    ("o/x", Entry::Unknown),
];

/// Paths, and the places that they name.
pub const SPELLINGS: &[(&str, &str)] = &[
    ("./a", "a"),
    ("d/../a", "a"),
    ("d//a", "d/a"),
    ("l/a", "d/a"),
    ("l/h", "d/h"),
    ("l/m", "d/m"),
    ("l/../locked/new", "locked/new"),
    ("d/.", "d"),
];

/// Paths through a folder that isn't there.
pub const MISSING: &[&str] = &["missing/x", "missing/a\x7f"];

/// Paths below regular files, also below files that come and go. Nothing is ever there.
pub const BELOW_FILES: &[&str] = &["fixed/b", "fixed/b/c", "a/", "a/.", "a/b", "m/b"];

/// Places in the folder that may refuse changes.
pub const IN_LOCKED: &[&str] = &["locked/h", "locked/i", "locked/new"];

/// Other paths, where nothing is at first.
pub const FREE: &[&str] = &[
    "b", " ", "=", "a\x7f", "\x7f", "\u{e9}", "d/a", "d/a\x7f", "d/ b=",
];
