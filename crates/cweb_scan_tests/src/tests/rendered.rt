// Renders a scan: the tokens, each part after its kind; transliterated bytes; file names; faults of source and names.
use super::*;
use cweb_files::Place;
use cweb_rules::ScanFault;
use cweb_store::{NameId, NameRef, Parts, Store, Token};

// Appends bytes. Unprintable ones are numbers in braces.
fn render_bytes(rendered: &mut String, bytes: &[u8]) -> Result<(), AllocError> {
    for byte in bytes {
        if matches!(*byte, b' '..=b'~') {
            rendered.push(char::from(*byte))?;
        } else {
            write!(rendered, "{{{:02x}}}", *byte)?;
        }
    }
    Ok(())
}

// Appends a place: its line, and its file if that isn't the web.
fn render_place(rendered: &mut String, place: Place) -> Result<(), AllocError> {
    if place.file.0 > 0 {
        write!(rendered, "{}.", place.file.0)?;
    }
    write!(rendered, "{}", place.line)
}

// Appends bytes between a prefix and a suffix.
fn render_between(
    rendered: &mut String,
    prefix: &str,
    bytes: &[u8],
    back: &str,
) -> Result<(), AllocError> {
    rendered.push_str(prefix)?;
    render_bytes(rendered, bytes)?;
    rendered.push_str(back)
}

// Appends a name in angle brackets.
fn render_name(rendered: &mut String, name: &[u8]) -> Result<(), AllocError> {
    render_between(rendered, "<", name, ">")
}

// Appends a use by the name that it resolves to.
fn render_use(rendered: &mut String, store: &Store, name: NameRef) -> Result<(), AllocError> {
    match store.standing(name) {
        Some(id) => render_name(rendered, store.name_text(id)),
        None => rendered.push_str("<?>"),
    }
}

fn render_mark(rendered: &mut String, place: Place) -> Result<(), AllocError> {
    rendered.push_str("at:")?;
    render_place(rendered, place)
}

// Appends the letter of a token's kind and the token's bytes.
fn render_spelling(rendered: &mut String, letter: &str, bytes: &[u8]) -> Result<(), AllocError> {
    rendered.push_str(letter)?;
    render_bytes(rendered, bytes)
}

fn render_token(rendered: &mut String, store: &Store, token: Token<'_>) -> Result<(), AllocError> {
    match token {
        Token::Word(bytes) => render_spelling(rendered, "w:", bytes),
        Token::Number(bytes) => render_spelling(rendered, "n:", bytes),
        Token::Literal(bytes) => render_spelling(rendered, "l:", bytes),
        Token::Verbatim(bytes) => render_spelling(rendered, "v:", bytes),
        Token::Punct(bytes) => render_spelling(rendered, "p:", bytes),
        Token::Blank => rendered.push_str("_"),
        Token::Newline => rendered.push_str("/"),
        Token::Join => rendered.push_str("&"),
        Token::Defs => rendered.push_str("defs"),
        Token::Name(name) => render_use(rendered, store, name),
        Token::Head(section) => write!(rendered, "head:{section}"),
        Token::Tail(section) => write!(rendered, "tail:{section}"),
        Token::Mark(place) => render_mark(rendered, place),
    }
}

// Appends the kind of each of these parts that begins with this token, between a prefix and a suffix.
fn render_parts(
    rendered: &mut String,
    parts: Parts<'_>,
    number: u32,
    kind: &[u8],
    brackets: (&str, &str),
) -> Result<(), AllocError> {
    for part in parts {
        if part.first == number {
            render_between(rendered, brackets.0, kind, brackets.1)?;
        }
    }
    Ok(())
}

// Appends the kind of the part that begins with this token, in brackets.
fn render_kind(rendered: &mut String, store: &Store, number: u32) -> Result<(), AllocError> {
    render_parts(rendered, store.macros(), number, b"macro", ("[", "] "))?;
    render_parts(rendered, store.unnamed(), number, b"program", ("[", "] "))?;
    for id in 0..store.names() {
        let id = NameId(id);
        let name = store.name_text(id);
        render_parts(rendered, store.parts(id), number, name, ("[<", ">] "))?;
    }
    Ok(())
}

// Appends the tokens, each followed by a blank.
fn render_tokens(rendered: &mut String, store: &Store) -> Result<(), AllocError> {
    for number in 0..store.tokens() {
        render_kind(rendered, store, number)?;
        render_token(rendered, store, store.token(number))?;
        rendered.push_str(" ")?;
    }
    Ok(())
}

fn render_replacements(rendered: &mut String, store: &Store) -> Result<(), AllocError> {
    for byte in 128..=255 {
        if let Some(text) = store.replacement(byte) {
            write!(rendered, "{byte:02x}")?;
            render_between(rendered, "=", text, " ")?;
        }
    }
    Ok(())
}

fn render_files(rendered: &mut String, store: &Store) -> Result<(), AllocError> {
    for id in store.files() {
        render_between(rendered, "file <", store.name_text(*id), "> ")?;
    }
    Ok(())
}

fn render_faults(rendered: &mut String, faults: &[ScanFault]) -> Result<(), AllocError> {
    for fault in faults {
        write!(rendered, "{:?} ", fault.kind)?;
        render_place(rendered, fault.place)?;
        rendered.push_str(" ")?;
    }
    Ok(())
}

// Appends the faults of names, each with its name or prefix.
fn render_name_faults(rendered: &mut String, store: &Store) -> Result<(), AllocError> {
    for fault in store.name_faults() {
        write!(rendered, "{:?}", fault.kind)?;
        render_between(
            rendered,
            " <",
            store.occurrence_text(fault.occurrence),
            "> ",
        )?;
    }
    Ok(())
}

/// Appends all of it, each item followed by a blank.
pub fn render(rendered: &mut String, made: &Scanned) -> Result<(), AllocError> {
    render_tokens(rendered, &made.store)?;
    render_replacements(rendered, &made.store)?;
    render_files(rendered, &made.store)?;
    render_faults(rendered, made.faults.as_slice())?;
    render_name_faults(rendered, &made.store)
}
