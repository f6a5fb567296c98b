// The calls of a builder, and what the store answers.
ghost use Rattle.std.specs.Prelude.{◌≡◌};
ghost use Rattle.cweb_store.specs.Calls.{empty};

use super::types::token_number;
use crate::tests::wanted::{holds, same_bytes};
use cweb_store::{
    Builder, Edge, How, NameId, NameKind, NameRef, Part, PartKind, Store, Token, TokenReader,
};
use std::alloc::{AllocError, Global};
use std::process::Abort;

/// Adds a part of these words. It tests what the builder's calls require.
pub fn add_part(builder: &mut Builder, kind: PartKind, words: &[&[u8]]) -> Result<(), AllocError> {
    if builder.is_open() || !builder.has_room() {
        return Err(AllocError);
    }
    builder.open_part(kind)?;
    for word in words {
        push_word(builder, *word)?;
    }
    if builder.is_open() {
        builder.close_part();
    }
    Ok(())
}

fn push_word(builder: &mut Builder, word: &[u8]) -> Result<(), AllocError> {
    if !builder.is_open() || !builder.has_room() {
        return Err(AllocError);
    }
    builder.push(Token::Word(word))
}

// A file name with a part, which uses a name without one, and a macro.
fn add_file(builder: &mut Builder) -> Result<(), AllocError>
    requires { builder.old.contents ≡ empty }
{
    let file = builder.occurrence(b"a.h", How::Full, true)?;
    builder.open_part(PartKind::Named(file))?;
    builder.push(Token::Word(b"x"))?;
    let missing = builder.occurrence(b"gone", How::Full, false)?;
    builder.push(Token::Name(missing))?;
    builder.push(Token::Blank)?;
    builder.drop_layout();
    builder.close_part();
    builder.transliterate(0xfc, b"ue")?;
    add_part(builder, PartKind::Macro, &[b"M"])
}

pub fn small_store(alloc: Global) -> Result<Store, AllocError> {
    let mut builder = Builder::new(alloc);
    add_file(&mut builder)?;
    builder.finish()
}

fn answers_names(rt: &impl Abort, store: &Store) {
    holds(rt, store.names() == 2 && store.occurrences() == 2);
    same_bytes(rt, store.name_text(NameId(0)), b"a.h");
    same_bytes(rt, store.occurrence_text(NameRef(1)), b"gone");
    holds(rt, store.standing(NameRef(1)) == Some(NameId(1)));
    holds(rt, store.files() == [NameId(0)].as_slice());
    holds(rt, store.replacement(0xfc) == Some(b"ue".as_slice()));
    holds(rt, !store.has_defs_code());
    holds(rt, store.text_bytes() > 0);
}

fn answers_faults(rt: &impl Abort, store: &Store) {
    let faults = store.name_faults();
    holds(rt, faults.len() == 1);
    holds(rt, faults[0].kind == NameKind::NotPresent);
    same_bytes(rt, store.occurrence_text(faults[0].occurrence), b"gone");
}

fn answers_parts(rt: &impl Abort, store: &Store) {
    holds(rt, store.unnamed().next().is_none());
    holds(
        rt,
        store.macros().next() == Some(Part { first: 2, after: 3 }),
    );
    let mut parts = store.parts(NameId(0));
    let part = parts.next().expect(rt, "a part");
    holds(
        rt,
        part.first == 0 && part.after == 2 && store.tokens() == 3,
    );
    holds(rt, token_number(store.token(part.first)) == 1);
    holds(rt, store.next_use(part) == 1);
}

fn reads_direct_bytes(rt: &impl Abort, store: &Store) {
    holds(rt, store.tokens() == 3);
    let reader: TokenReader<'_> = store.token_reader();
    let word = reader.direct(0).expect(rt, "a direct token");
    same_bytes(rt, word.string, b"x");
    holds(rt, word.edge as u8 == Edge::Word as u8);
    holds(rt, reader.direct(1).is_none());
}

#[test]
fn a_store_answers_what_was_added(rt: HostRuntime) {
    let store = small_store(rt.alloc()).expect(&rt, "memory");
    answers_names(&rt, &store);
    answers_faults(&rt, &store);
    answers_parts(&rt, &store);
    reads_direct_bytes(&rt, &store);
}

#[test]
fn a_builder_knows_whether_a_part_is_open(rt: HostRuntime) {
    let mut builder = Builder::new(rt.alloc());
    holds(&rt, !builder.is_open() && builder.has_room());
    builder.open_part(PartKind::Unnamed).expect(&rt, "memory");
    holds(&rt, builder.is_open() && builder.has_room());
    builder.close_part();
    holds(&rt, !builder.is_open());
}
