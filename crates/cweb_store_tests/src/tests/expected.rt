// Compares reports with expected strings, without allocation.
ghost use Rattle.std.specs.Prelude.{◌<◌, ◌≤◌, length, All};
ghost use Rattle.cweb_store.specs.Parts.{all_tokens};

use super::*;

/// The rest of an expected string that is compared in parts.
#[derive(Drop)]
pub struct Expected<'a> {
    rest: &'a [u8],
    is_met: bool,
}

impl<'a> Expected<'a> {
    pub fn new(text: &'a str) -> Expected<'a> {
        Expected {
            rest: text.as_bytes(),
            is_met: true,
        }
    }

    pub fn is_met(&self) -> bool {
        self.is_met && self.rest.is_empty()
    }

    fn compare(&mut self, piece: &[u8]) {
        match self.rest.strip_prefix(piece) {
            Some(rest) => self.rest = rest,
            None => self.is_met = false,
        }
    }

    // Numbers in tests have at most three digits.
    fn compare_number(&mut self, number: u32) {
        if number >= 100 {
            self.compare_last_digit(number / 100);
        }
        if number >= 10 {
            self.compare_last_digit(number / 10);
        }
        self.compare_last_digit(number);
    }

    fn compare_last_digit(&mut self, number: u32) {
        let digit = [b'0' + (number % 10) as u8];
        self.compare(digit.as_slice());
    }

    /// Names with their parts, the program, macros, files and faults.
    pub fn compare_store(&mut self, store: &Store) {
        self.compare_names(store);
        self.compare(b"program");
        self.compare_parts(store, store.unnamed());
        self.compare(b"; macros");
        self.compare_parts(store, store.macros());
        self.compare(b"; files");
        self.compare_files(store);
        self.compare(b"; faults");
        self.compare_faults(store);
    }

    fn compare_files(&mut self, store: &Store) {
        for id in store.files() {
            self.compare(b" ");
            self.compare_number(id.0);
        }
    }

    fn compare_faults(&mut self, store: &Store) {
        for fault in store.name_faults() {
            self.compare(kind_name(fault.kind));
            self.compare_number(fault.occurrence.0);
        }
    }

    /// The resolutions of the first three occurrences.
    pub fn compare_resolutions(&mut self, store: &Store) {
        for number in 0..3 {
            match store.standing(NameRef(number)) {
                Some(id) => self.compare_number(id.0),
                None => self.compare(b"-"),
            }
        }
    }

    /// The numbers of tokens and bytes, Defs in the program, and replacements.
    pub fn compare_counts(&mut self, store: &Store) {
        self.compare(b"tokens ");
        self.compare_number(store.tokens());
        self.compare(b"; bytes ");
        self.compare_number(store.text_bytes().min(999) as u32);
        if store.has_defs_code() {
            self.compare(b"; defs");
        }
        for byte in 128..=255 {
            self.compare_replacement(byte, store.replacement(byte));
        }
    }

    fn compare_replacement(&mut self, byte: u8, text: Option<&[u8]>) {
        let Some(text) = text else {
            return;
        };
        self.compare(b"; byte ");
        self.compare_number(u32::from(byte));
        self.compare(b" ");
        self.compare(text);
    }

    /// The first use in a range of tokens.
    pub fn compare_next_use(&mut self, store: &Store, first: u32, after: u32)
        requires { first ≤ after }
    {
        self.compare(b" ");
        self.compare_number(store.next_use(Part { first, after }));
    }

    fn compare_names(&mut self, store: &Store) {
        for number in 0..store.names() {
            self.compare(store.name_text(NameId(number)));
            self.compare_parts(store, store.parts(NameId(number)));
            self.compare(b"; ");
        }
    }

    // The parts of an iterator, each after a separator.
    fn compare_parts<'b>(&mut self, store: &'b Store, parts: Parts<'b>)
        requires { All (λ p. p.after ≤ length (all_tokens store.now.parts)) parts }
    {
        for part in parts {
            self.compare(b":");
            for number in part.first..part.after {
                self.compare_token(store.token(number));
            }
        }
    }

    fn compare_token(&mut self, token: Token<'_>) {
        self.compare(token_name(token));
        self.compare(token_bytes(token));
        if let Some(number) = token_number(token) {
            self.compare_number(number);
        }
    }
}

fn kind_name(kind: NameKind) -> &'static [u8] {
    match kind {
        NameKind::Ambiguous => b" ambiguous ",
        NameKind::NeverFull => b" never given ",
        NameKind::PrefixOfAnother => b" prefix ",
        NameKind::NotPresent => b" missing ",
    }
}

fn token_name(token: Token<'_>) -> &'static [u8] {
    match token {
        Token::Word(_) => b" ",
        Token::Number(_) => b" number ",
        Token::Literal(_) => b" literal ",
        Token::Verbatim(_) => b" verbatim ",
        Token::Punct(_) => b" sign ",
        Token::Blank => b" blank",
        Token::Newline => b" newline",
        Token::Join => b" join",
        Token::Defs => b" defs",
        Token::Name(_) => b" name ",
        Token::Head(_) => b" head ",
        Token::Tail(_) => b" tail ",
        Token::Mark(_) => b" mark ",
    }
}

fn token_bytes(token: Token<'_>) -> &[u8] {
    match token {
        Token::Word(text) => text,
        Token::Number(text) => text,
        Token::Literal(text) => text,
        Token::Verbatim(text) => text,
        Token::Punct(text) => text,
        _ => b"",
    }
}

fn token_number(token: Token<'_>) -> Option<u32> {
    match token {
        Token::Name(name) => Some(name.0),
        Token::Head(section) => Some(section),
        Token::Tail(section) => Some(section),
        Token::Mark(place) => Some(place.line),
        _ => None,
    }
}
