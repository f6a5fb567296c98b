// Files in real folders, and streams that transfer as many bytes as they like.
mod folder;
mod runs;
mod streams;
mod wanted;
