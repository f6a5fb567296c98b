// Random calls on a real folder and on the file system in memory, which must answer alike.
//
// Where the trait leaves more to the kernel than the file system in memory does, the calls keep to the trait:
// - No folder is opened, and nothing is read from a file that is open for writing.
// - Only regular files are renamed.
// - Below a regular file, and in a rename onto a folder, several faults can fit: which comes first isn't compared.
// - The links `l` to a folder and `o` to itself are never changed, since other paths go through them.
// - Each file can be read by its owner.
mod both;
mod calls;
mod changes;
mod folder;
mod layout;
mod paths;
mod sink;
mod streams;
mod universe;
