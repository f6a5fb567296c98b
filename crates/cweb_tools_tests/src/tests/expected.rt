// Compares consecutive strings with an expected one.

/// The rest of an expected string. Comparing allocates nothing.
#[derive(Drop)]
pub struct Expected<'a> {
    pub rest: &'a [u8],
    is_met: bool,
}

impl<'a> Expected<'a> {
    pub fn new(text: &'a [u8]) -> Expected<'a> {
        Expected {
            rest: text,
            is_met: true,
        }
    }

    pub fn is_met(&self) -> bool {
        self.is_met && self.rest.is_empty()
    }

    pub fn feed(&mut self, piece: &[u8]) {
        match self.rest.strip_prefix(piece) {
            Some(rest) => self.rest = rest,
            None => self.is_met = false,
        }
    }
}
