// Drafts and their paths.
ghost use Rattle.std.specs.Prelude.{◌≡◌, ◌++◌, ◌∷◌, [], string_bytes};

use crate::node::FileKey;

/// The path of a draft: the name of the file that it becomes, and byte 127.
#[derive(Clone, Copy)]
pub struct DraftPath<'a> {
    pub name: &'a str,
    pub text: &'a str,
    ghost is_draft: { text.now ≡ name.now ++ 127 ∷ [] },
}

/// A draft that this run has created and opened for writing, or a device.
#[derive(Drop)]
pub struct Draft<H: Drop> {
    /// The name of the file that it becomes.
    pub name: String,
    /// The draft's own name.
    pub path: String,
    pub key: FileKey,
    pub file: H,
    /// Its bytes go to a device at once. No draft exists.
    pub is_device: bool,
    ghost is_draft: { string_bytes path ≡ string_bytes name ++ 127 ∷ [] },
}
