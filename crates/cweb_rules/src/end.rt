// How a delimited item ends.

/// How a delimited item ended.
#[derive(Clone, Copy, Debug, PartialEq, Eq)]
pub enum End {
    /// By its closer.
    Closed,
    /// Before its closer: by bytes that may not be in it, or by the end of the source.
    Cut,
    /// A name, before the opener of another name.
    Nested,
    /// Not within this line.
    Open,
}
