// The lists of a token's bytes as slices.
ghost use Rattle.std.specs.Prelude.{◌≡◌, ◌<◌, List, ℕ, [], length, option_map, slice_get, Some};
ghost use Rattle.cweb_store.specs.inner.DirectBytes.{direct_bytes};
ghost use Rattle.cweb_store.specs.Parts as spec;
ghost use Rattle.cweb_store.specs.inner.Records.{StringIsWithin, token_of_record};
ghost use Rattle.cweb_store.specs.inner.StringLists.{token_bytes_model, string_at};

use crate::edges::{Edge, TokenBytes, has_high_byte, punctuator_edge};
use crate::slices::StringSlices;
use crate::tokens::records::Record;
use std::marker::Model;

/// A reader of tokens' bytes. A loop that holds it doesn't reload the pointers of the store's lists.
#[derive(Drop)]
pub struct TokenReader<'a> {
    pub(crate) records: &'a [Record],
    pub(crate) strings: StringSlices<'a>,
}

impl<'a> Model for TokenReader<'a> {
    ghost use Rattle.std.specs.Prelude.{List, [], Option, ℕ, length, map};
    ghost use Rattle.cweb_store.specs.inner.StringLists.{TokenBytesModel};
    ghost use Rattle.cweb_store.specs.inner.DirectBytes.{direct_bytes};
    ghost use Rattle.cweb_store.specs.inner.Records.{AreRecords, tokens_of};

    ghost Value = { List (Option TokenBytesModel) };

    ghost view = { λ s. map direct_bytes (tokens_of s.strings [] s.records.now) };

    ghost invariant = { λ s.
        (places : ℕ) × AreRecords (length s.strings) 0 s.records.now places };
}

impl<'a> TokenReader<'a> {
    /// The bytes of a direct token: one that is printed as its own bytes, whatever is to its left. `None` for others.
    #[inline(always)]
    pub fn direct(&self, number: u32) -> Option<TokenBytes<'a>>
        requires { number < length self.now }
        ensures { slice_get self.now number ≡ Some (option_map token_bytes_model result) }
    {
        direct(&self.strings, self.records[number as usize])
    }
}

// The bytes of a record's token. The bytes aren't inspected if the string table stores their edge.
#[inline(always)]
fn direct<'a>(strings: &StringSlices<'a>, item: Record) -> Option<TokenBytes<'a>>
    requires { StringIsWithin (length strings.now) item }
    ensures { option_map token_bytes_model result
        ≡ direct_bytes (token_of_record strings.now [] item) }
{
    match item {
        Record::Word(number) => direct_word(strings, number.get() as usize),
        Record::Number(number) => Some(TokenBytes {
            string: strings.string(number.get() as usize),
            edge: Edge::Number,
        }),
        Record::Literal(number) => Some(TokenBytes {
            string: strings.string(number.get() as usize),
            edge: Edge::Literal,
        }),
        Record::Verbatim(number) => Some(TokenBytes {
            string: strings.string(number.get() as usize),
            edge: Edge::Glue,
        }),
        Record::Punct(number) => direct_punctuator(strings, number.get() as usize),
        Record::Blank => Some(TokenBytes {
            string: b" ",
            edge: Edge::Blank,
        }),
        Record::Newline => Some(TokenBytes {
            string: b"\n",
            edge: Edge::LineEnd,
        }),
        _ => None,
    }
}

#[inline(always)]
fn direct_word<'a>(strings: &StringSlices<'a>, number: usize) -> Option<TokenBytes<'a>>
    requires { number < length strings.now }
    ensures { option_map token_bytes_model result
        ≡ direct_bytes (spec.Word (string_at strings.now number)) }
{
    let word = strings.string(number);
    match strings.edge(number) {
        Edge::Unknown if has_high_byte(word) => None,
        _ => Some(TokenBytes {
            string: word,
            edge: Edge::Word,
        }),
    }
}

#[inline(always)]
fn direct_punctuator<'a>(strings: &StringSlices<'a>, number: usize) -> Option<TokenBytes<'a>>
    requires { number < length strings.now }
    ensures { option_map token_bytes_model result
        ≡ direct_bytes (spec.Punct (string_at strings.now number)) }
{
    let string = strings.string(number);
    match strings.edge(number) {
        Edge::Unknown if has_high_byte(string) => None,
        Edge::Unknown => Some(TokenBytes {
            string,
            edge: punctuator_edge(string),
        }),
        edge => Some(TokenBytes { string, edge }),
    }
}
