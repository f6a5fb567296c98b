// Tokens as records of five bytes. A record holds an index of its string, or of its place if it is a Mark.
ghost use Rattle.std.specs.Prelude.{◌≡◌, ◌<◌, ◌+◌, ℕ, length, Some, slice_get, IfOk, OnOk, OnErr};
ghost use Rattle.cweb_store.specs.surface.Tokens.{too_many, token_model};
ghost use Rattle.cweb_store.specs.inner.Records.{AreRecords, AddsPlace, InternsToken, StringIsWithin, PlaceIsWithin};
ghost use Rattle.cweb_store.specs.inner.Records.{token_of_record, tokens_of, AddsNumber, HasSameEntries};

use crate::string_table::StringTable;
use crate::strings::StringList;
use crate::tokens::token_index::TokenIndex;
use crate::tokens::unaligned::Unaligned;
use crate::{NameRef, Token};
use cweb_files::Place;
use std::alloc::AllocError;

/// A token whose string or place is stored elsewhere.
#[derive(Clone, Copy)]
pub enum Record {
    Word(Unaligned),
    Number(Unaligned),
    Literal(Unaligned),
    Verbatim(Unaligned),
    Punct(Unaligned),
    Blank,
    Newline,
    Join,
    Defs,
    Name(Unaligned),
    Head(Unaligned),
    Tail(Unaligned),
    Mark(Unaligned),
}

// Records take most of a store's memory.
const _: () = prove!(size_of::<Record>() == 5);

/// The record of token `number`. Its string, its place or its index entry is stored. A refused call changes nothing.
/// `reserve` and `push_reserved` are inlined here, which `push` is not.
#[inline(always)]
pub fn record_of(
    strings: &mut StringTable,
    places: &mut Vec<Place>,
    token_index: &mut TokenIndex,
    number: u32,
    token: Token<'_>,
) -> Result<Record, AllocError>
    requires few { length places.old.items < too_many }
    requires few_texts { length strings.old.strings + 1 < too_many }
    ensures packs { IfOk result (λ item.
        InternsToken strings.old (token_model token.entry) places.new.items item strings.new) }
    ensures placed { IfOk result (λ item. AddsPlace places.old.items item places.new.items) }
    ensures indexed { OnOk result
        (AddsNumber token_index.old number (token_model token.entry) token_index.new) }
    ensures err { OnErr result ((strings.new ≡ strings.old) × (places.new.items ≡ places.old.items)
        × HasSameEntries token_index.old token_index.new) }
{
    match token {
        Token::Word(string) => Ok(Record::Word(Unaligned::of(strings.intern_word(string)?))),
        Token::Number(string) => Ok(Record::Number(Unaligned::of(strings.intern_word(string)?))),
        Token::Literal(string) => Ok(Record::Literal(Unaligned::of(strings.add_string(string)?))),
        Token::Verbatim(string) => Ok(Record::Verbatim(Unaligned::of(strings.add_string(string)?))),
        Token::Punct(string) => Ok(Record::Punct(Unaligned::of(strings.intern_punctuator(
            string,
        )?))),
        Token::Blank => Ok(Record::Blank),
        Token::Newline => Ok(Record::Newline),
        Token::Join => Ok(Record::Join),
        Token::Defs => {
            token_index.defs.reserve(1)?;
            token_index.defs.push_reserved(number);
            Ok(Record::Defs)
        }
        Token::Name(name) => {
            token_index.uses.reserve(1)?;
            token_index.uses.push_reserved(number);
            Ok(Record::Name(Unaligned::of(name.0)))
        }
        Token::Head(section) => Ok(Record::Head(Unaligned::of(section))),
        Token::Tail(section) => Ok(Record::Tail(Unaligned::of(section))),
        Token::Mark(place) => {
            places.reserve(1)?;
            let number = places.len() as u32;
            places.push_reserved(place);
            Ok(Record::Mark(Unaligned::of(number)))
        }
    }
}

/// The token at an index. It borrows its bytes from the string table.
#[inline(always)]
pub fn token_at<'a>(
    strings: &'a StringList,
    places: &[Place],
    records: &[Record],
    number: usize,
) -> Token<'a>
    requires records { AreRecords (length strings.now) 0 records.now (length places.now) }
    requires within { number < length records.now }
    ensures { slice_get (tokens_of strings.now places.now records.now) number
        ≡ Some (token_model result) }
{
    token_of_record(strings, places, records[number])
}

// The token of a record.
#[inline(always)]
fn token_of_record<'a>(strings: &'a StringList, places: &[Place], item: Record) -> Token<'a>
    requires string { StringIsWithin (length strings.now) item }
    requires place { PlaceIsWithin (length places.now) item }
    ensures { token_model result ≡ token_of_record strings.now places.now item }
{
    match item {
        Record::Word(number) => Token::Word(strings.string(number.get() as usize)),
        Record::Number(number) => Token::Number(strings.string(number.get() as usize)),
        Record::Literal(number) => Token::Literal(strings.string(number.get() as usize)),
        Record::Verbatim(number) => Token::Verbatim(strings.string(number.get() as usize)),
        Record::Punct(number) => Token::Punct(strings.string(number.get() as usize)),
        Record::Blank => Token::Blank,
        Record::Newline => Token::Newline,
        Record::Join => Token::Join,
        Record::Defs => Token::Defs,
        Record::Name(name) => Token::Name(NameRef(name.get())),
        Record::Head(section) => Token::Head(section.get()),
        Record::Tail(section) => Token::Tail(section.get()),
        Record::Mark(number) => Token::Mark(places[number.get() as usize]),
    }
}

/// The index of the first place of these last records, or the number of places if they have none.
pub fn first_place(records: &[Record], all: usize) -> usize
    ensures { (n number : ℕ) → AreRecords n number records.now all → result ≡ number }
{
    for item in records {
        if let Record::Mark(number) = *item {
            return number.get() as usize;
        }
    }
    all
}
