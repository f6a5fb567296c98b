// Chunks of log lines, and their parts.
ghost use Rattle.std.specs.Prelude.{◌≡◌, ◌++◌, codes, decimal};
ghost use Rattle.cweb_tools.specs.Items.{fault, line, located};
ghost use Rattle.cweb_tools.specs.inner.LogText.{joined_parts, part_bytes};

/// A part of a chunk.
#[derive(Clone, Copy)]
pub(crate) enum Part<'a> {
    Text(&'a [u8]),
    Number(u128),
}

/// A part without bytes.
pub(crate) const NOTHING: Part<'static> = Part::Text(b"");

/// The parts of a chunk, in order.
pub(crate) type Chunk<'a> = [Part<'a>; 8];

/// A text or a number between two texts.
pub(crate) fn between<'a>(start: &'a str, part: Part<'a>, end: &'a str) -> Chunk<'a>
    ensures { joined_parts result ≡ start.now ++ (part_bytes part.entry ++ end.now) }
{
    [
        Part::Text(start.as_bytes()),
        part,
        Part::Text(end.as_bytes()),
        NOTHING,
        NOTHING,
        NOTHING,
        NOTHING,
        NOTHING,
    ]
}

/// The line of a fault without a place. Its message has a name in it.
pub(crate) fn fault_chunk<'a>(text: &'a str, name: &'a [u8], end: &'a str) -> Chunk<'a>
    ensures { joined_parts result ≡ line (fault (text.now ++ (name.now ++ end.now))) }
{
    [
        Part::Text(b"! "),
        Part::Text(text.as_bytes()),
        Part::Text(name),
        Part::Text(end.as_bytes()),
        Part::Text(b"\n"),
        NOTHING,
        NOTHING,
        NOTHING,
    ]
}

/// The line of a fault with a place.
pub(crate) fn located_chunk<'a>(file: &'a str, number: u32, text: &'static str) -> Chunk<'a>
    ensures { joined_parts result ≡ line (located file.now number text.now) }
{
    [
        Part::Text(file.as_bytes()),
        Part::Text(b":"),
        Part::Number(u128::from(number)),
        Part::Text(b": ! "),
        Part::Text(text.as_bytes()),
        Part::Text(b"\n"),
        NOTHING,
        NOTHING,
    ]
}

/// The line of a fault with a place and a number.
pub(crate) fn counted_chunk<'a>(
    file: &'a str,
    number: u32,
    text: &'static str,
    count: u32,
) -> Chunk<'a>
    ensures { joined_parts result
        ≡ line (located file.now number (text.now ++ (codes ": " ++ decimal count))) }
{
    [
        Part::Text(file.as_bytes()),
        Part::Text(b":"),
        Part::Number(u128::from(number)),
        Part::Text(b": ! "),
        Part::Text(text.as_bytes()),
        Part::Text(b": "),
        Part::Number(u128::from(count)),
        Part::Text(b"\n"),
    ]
}
