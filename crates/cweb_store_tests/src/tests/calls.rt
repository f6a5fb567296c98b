// Parses builder calls: a word and its argument.
use super::*;
use cweb_files::{FileId, Place};

#[derive(Clone, Copy)]
pub enum Call<'a> {
    Occurs(&'a str, How, bool),
    Opens(PartKind),
    Pushes(Token<'a>),
    Drops,
    Closes,
    Transliterates(u8, &'a str),
}

pub fn known<'a>(rt: &impl Abort, text: &'a str) -> Call<'a> {
    match read(text) {
        Some(call) => call,
        None => panic!(rt; "{text}"),
    }
}

fn read(text: &str) -> Option<Call<'_>> {
    let (word, rest) = text.split_once(' ').unwrap_or((text, ""));
    match word {
        "full" | "prefix" | "file" | "file-prefix" => Some(read_occurrence(word, rest)),
        "program" | "macro" | "part" => read_part(word, rest),
        "drop" => Some(Call::Drops),
        "close" => Some(Call::Closes),
        "byte" => read_replacement(rest),
        _ => read_token(word, rest),
    }
}

fn read_occurrence<'a>(word: &str, name: &'a str) -> Call<'a> {
    let how = if word.ends_with("prefix") {
        How::Prefix
    } else {
        How::Full
    };
    Call::Occurs(name, how, word.starts_with("file"))
}

fn read_part<'a>(word: &str, number: &'a str) -> Option<Call<'a>> {
    match word {
        "program" => Some(Call::Opens(PartKind::Unnamed)),
        "macro" => Some(Call::Opens(PartKind::Macro)),
        _ => {
            let number = number.parse::<u32>().ok()?;
            Some(Call::Opens(PartKind::Named(NameRef(number))))
        }
    }
}

fn read_replacement(rest: &str) -> Option<Call<'_>> {
    let (byte, text) = rest.split_once(' ')?;
    Some(Call::Transliterates(byte.parse::<u8>().ok()?, text))
}

fn read_token<'a>(word: &str, rest: &'a str) -> Option<Call<'a>> {
    let bytes = rest.as_bytes();
    match word {
        "word" => Some(Call::Pushes(Token::Word(bytes))),
        "number" => Some(Call::Pushes(Token::Number(bytes))),
        "literal" => Some(Call::Pushes(Token::Literal(bytes))),
        "verbatim" => Some(Call::Pushes(Token::Verbatim(bytes))),
        "sign" => Some(Call::Pushes(Token::Punct(bytes))),
        _ => read_numbered(word, rest.parse::<u32>().unwrap_or(0)),
    }
}

fn read_numbered<'a>(word: &str, number: u32) -> Option<Call<'a>> {
    let place = Place {
        file: FileId(0),
        line: number,
    };
    match word {
        "name" => Some(Call::Pushes(Token::Name(NameRef(number)))),
        "head" => Some(Call::Pushes(Token::Head(number))),
        "tail" => Some(Call::Pushes(Token::Tail(number))),
        "mark" => Some(Call::Pushes(Token::Mark(place))),
        _ => read_layout(word),
    }
}

fn read_layout<'a>(word: &str) -> Option<Call<'a>> {
    match word {
        "blank" => Some(Call::Pushes(Token::Blank)),
        "newline" => Some(Call::Pushes(Token::Newline)),
        "join" => Some(Call::Pushes(Token::Join)),
        "defs" => Some(Call::Pushes(Token::Defs)),
        _ => None,
    }
}
