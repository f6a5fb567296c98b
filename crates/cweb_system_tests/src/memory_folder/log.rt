// The log of a file system in memory.
ghost use Rattle.std.specs.Prelude.{◌≡◌, ◌<◌, ◌≤◌, ◌+◌, ◌^◌, ℕ, List, IfSome, length};
ghost use Rattle.std.specs.List.{slice_get};
ghost use Rattle.cweb_system_tests.specs.inner.Log.{IsAbove, bytes_step, node_step, node_with_mode};

use cweb_system::{FileKey, Node};

/// A change of the file system.
#[derive(Drop)]
pub enum Change {
    /// This node is at a path from now on.
    Put(String, Node),
    Create(String, FileKey, u32),
    /// A byte is appended.
    Append(FileKey, u8),
    SetMode(FileKey, u32),
    /// This node is moved from the first path to the second.
    Move(String, String, Node),
    Remove(String),
}

/// A byte of a file, if it has that many, and the size of the file.
#[derive(Clone, Copy)]
pub struct Sought {
    pub byte: Option<u8>,
    pub size: usize,
}

fn with_mode(key: FileKey, mode: u32, found: Option<Node>) -> Option<Node>
    ensures { result ≡ node_with_mode key mode found }
{
    match found {
        Some(Node::File(file, _)) if file == key => Some(Node::File(file, mode)),
        _ => found,
    }
}

/// What lies under a path after a change.
pub fn node_after(change: &Change, path: &str, found: Option<Node>) -> Option<Node>
    ensures { result ≡ node_step change.now path.now found }
{
    match change {
        Change::Put(at, node) if at.as_str() == path => Some(*node),
        Change::Create(at, key, mode) if at.as_str() == path => Some(Node::File(*key, *mode)),
        Change::SetMode(key, mode) => with_mode(*key, *mode, found),
        Change::Move(_, to, node) if to.as_str() == path => Some(*node),
        Change::Move(from, _, _) if from.as_str() == path => None,
        Change::Remove(at) if at.as_str() == path => None,
        _ => found,
    }
}

/// The byte of a file at a position, after a change.
pub fn sought_after(change: &Change, key: FileKey, position: usize, sought: Sought) -> Sought
    requires { sought.size + 1 < 2 ^ 64 }
    ensures size { (bytes : List ℕ) → sought.size ≡ length bytes →
        result.size ≡ length (bytes_step change.now key bytes) }
    ensures byte { (bytes : List ℕ) → sought.size ≡ length bytes →
        sought.byte ≡ slice_get bytes position →
        result.byte ≡ slice_get (bytes_step change.now key bytes) position }
{
    match change {
        Change::Create(_, file, _) if *file == key => Sought {
            byte: None,
            size: 0,
        },
        Change::Append(file, byte) if *file == key => Sought {
            byte: if sought.size == position {
                Some(*byte)
            } else {
                sought.byte
            },
            size: sought.size + 1,
        },
        _ => sought,
    }
}

/// A number above the one of a change's file, and not below `next`.
pub fn number_after(change: &Change, next: u64) -> Option<u64>
    ensures above { IfSome result (λ after. IsAbove change.now after) }
    ensures grows { IfSome result (λ after. next ≤ after) }
{
    match change {
        Change::Put(_, Node::File(key, _))
        | Change::Create(_, key, _)
        | Change::Move(_, _, Node::File(key, _)) => Some(key.number.checked_add(1)?.max(next)),
        _ => Some(next),
    }
}
