// The law of blanks: tokens are printed by `cweb_out` and read again by `cweb_scan`.
ghost use Rattle.std.specs.Prelude.{◌≡◌, true};
ghost use Rattle.cweb_lines.specs.surface.OpenedFileNames.{opened_file_names};
ghost use Rattle.cweb_store.specs.surface.Tokens.{token_model};
ghost use Rattle.cweb_out.specs.surface.Printed.{MarkFileIsNamed};
ghost use Rattle.cweb_out.specs.Printing.{Setting};

use super::wanted::holds;
use cweb_files::{MemoryShelf, MemorySink, Sink};
use cweb_lines::{FileNames, Merger, Stop};
use cweb_out::Printer;
use cweb_scan::{Scanned, scan};
use cweb_store::{Builder, Store, Token};
use std::alloc::{AllocError, Global};
use std::process::Abort;

// More bytes than any example has.
const ROOM: usize = 1000;

fn is_named(names: &FileNames, token: &Token<'_>) -> bool
    ensures { result ≡ true → (s : Setting) → s.files ≡ opened_file_names names.now
        → MarkFileIsNamed s (token_model token.now) }
{
    match token {
        Token::Mark(place) => place.file.0 < names.count(),
        _ => true,
    }
}

fn print(
    rt: &impl Abort,
    store: &Store,
    names: &FileNames,
    tokens: &[Token<'_>],
    out: &mut MemorySink,
) {
    let mut printer = Printer::new(store, names);
    'tokens: for token in tokens {
        assert!(rt; is_named(names, token));
        holds(rt, out.failures() == 0);
        holds(rt, printer.write(*token, out).is_ok());
    }
}

// A web whose program part has these bytes, with each `@` doubled.
fn web_of(alloc: Global, text: &[u8]) -> Result<Vec<u8>, AllocError> {
    let mut web = Vec::new(alloc);
    web.extend_from_slice(b"@ @c ")?;
    for byte in text {
        web.push(*byte)?;
        if *byte == b'@' {
            web.push(b'@')?;
        }
    }
    Ok(web)
}

// The kind and bytes of a token, or `None` for layout, section comments and marks.
fn kind_and_spelling(token: Token<'_>) -> Option<(u8, &[u8])> {
    match token {
        Token::Word(bytes) => Some((b'w', bytes)),
        Token::Number(bytes) => Some((b'n', bytes)),
        Token::Literal(bytes) => Some((b'l', bytes)),
        Token::Punct(bytes) => Some((b'p', bytes)),
        Token::Blank | Token::Newline | Token::Head(_) | Token::Tail(_) | Token::Mark(_) => None,
        _ => Some((b'?', b"")),
    }
}

// The index of the next significant token of a store, or the end.
fn next_significant(store: &Store, first: u32) -> u32 {
    for number in first..store.tokens() {
        if kind_and_spelling(store.token(number)).is_some() {
            return number;
        }
    }
    store.tokens()
}

// Whether these are the significant tokens of a store.
fn has_tokens(store: &Store, tokens: &[Token<'_>]) -> bool {
    let mut first = 0;
    for token in tokens {
        if kind_and_spelling(*token).is_some() {
            let number = next_significant(store, first);
            if number >= store.tokens()
                || kind_and_spelling(store.token(number)) != kind_and_spelling(*token)
            {
                return false;
            }
            first = number + 1;
        }
    }
    next_significant(store, first) >= store.tokens()
}

// A merger of a web, and the shelf that has it.
fn begun(alloc: Global, web: &[u8]) -> Result<(Merger<MemoryShelf>, MemoryShelf), Stop> {
    let mut shelf = MemoryShelf::new(alloc);
    shelf.put("a.w", web)?;
    let merger = Merger::start(alloc, &mut shelf, "a.w", None, None, None)?;
    Ok((merger, shelf))
}

fn printed(rt: &impl Abort, alloc: Global, tokens: &[Token<'_>]) -> MemorySink {
    let mut out = MemorySink::with_room(alloc, ROOM).expect(rt, "memory");
    let (merger, _) = begun(alloc, b"").expect(rt, "a web");
    print_under(rt, alloc, merger.names(), tokens, &mut out);
    out
}

fn print_under(
    rt: &impl Abort,
    alloc: Global,
    names: &FileNames,
    tokens: &[Token<'_>],
    out: &mut MemorySink,
) {
    let store = Builder::new(alloc).finish().expect(rt, "memory");
    print(rt, &store, names, tokens, out);
}

// The scan of C text.
fn scanned(alloc: Global, text: &[u8]) -> Result<Scanned, Stop> {
    let web = web_of(alloc, text)?;
    let (mut merger, mut shelf) = begun(alloc, &web)?;
    scan(alloc, &mut merger, &mut shelf)
}

// The bytes are read as these tokens, without a fault.
fn is_read(rt: &impl Abort, alloc: Global, text: &[u8], tokens: &[Token<'_>]) {
    let made = scanned(alloc, text).expect(rt, "a web");
    holds(rt, made.faults.is_empty());
    holds(rt, has_tokens(&made.store, tokens));
}

// The tokens are printed, and read again as the same tokens without a fault. `text` is the expected output, if given.
fn comes_back(rt: &impl Abort, alloc: Global, tokens: &[Token<'_>], text: Option<&[u8]>) {
    let out = printed(rt, alloc, tokens);
    holds(rt, out.bytes() == text.unwrap_or(out.bytes()));
    is_read(rt, alloc, out.bytes(), tokens);
}

#[test]
fn examples_come_back(rt: HostRuntime) {
    const EXAMPLES: &[(&[Token<'static>], &[u8])] = &[
        (
            &[
                Token::Number(b"0xe"),
                Token::Punct(b"+"),
                Token::Number(b"1"),
                Token::Punct(b"."),
                Token::Number(b".5"),
                Token::Literal(b"\"a\""),
                Token::Literal(b"R\"(b)\""),
                Token::Word(b"R"),
                Token::Literal(b"\"(c)\""),
            ],
            b"0xe +1 . .5 \"a\"R\"(b)\" R \"(c)\"",
        ),
        (&[Token::Punct(b"-"), Token::Punct(b"->")], b"- ->"),
        (&[Token::Punct(b"."), Token::Punct(b"...")], b". ..."),
        (&[Token::Punct(b"/"), Token::Punct(b"*")], b"/ *"),
        (&[Token::Punct(b"@"), Token::Word(b"d")], b"@d"),
        (
            &[Token::Punct(b"/"), Token::Head(1), Token::Punct(b"*")],
            b"/ /*1:*/*",
        ),
    ];
    for (tokens, text) in EXAMPLES {
        comes_back(&rt, rt.alloc(), *tokens, Some(*text));
    }
}

// A raw literal with a newline and an `@`, and a literal of two lines.
#[test]
fn literals_of_more_lines_come_back(rt: HostRuntime) {
    const TOKENS: &[Token<'static>] = &[
        Token::Literal(b"R\"x(a\n@b)x\""),
        Token::Newline,
        Token::Literal(b"\"@\\\n\""),
        Token::Word(b"u8"),
        Token::Literal(b"u8\"c\""),
    ];
    const PRINTED: &[u8] = b"R\"x(a\n@b)x\"\n\"@\\\n\" u8 u8\"c\"";
    comes_back(&rt, rt.alloc(), TOKENS, Some(PRINTED));
}

static TOKENS: [Token<'static>; 44] = [
    Token::Word(b"a"),
    Token::Word(b"R"),
    Token::Word(b"L"),
    Token::Word(b"u8"),
    Token::Word(b"e5"),
    Token::Number(b"0"),
    Token::Number(b"0xe"),
    Token::Number(b"1e+"),
    Token::Number(b".5"),
    Token::Number(b"1."),
    Token::Literal(b"\"a\""),
    Token::Literal(b"'b'"),
    Token::Literal(b"L\"/*\""),
    Token::Literal(b"R\"(@*)\""),
    Token::Literal(b"u8R\"-(b)-\""),
    Token::Punct(b"+"),
    Token::Punct(b"-"),
    Token::Punct(b"*"),
    Token::Punct(b"/"),
    Token::Punct(b"%"),
    Token::Punct(b"&"),
    Token::Punct(b"|"),
    Token::Punct(b"^"),
    Token::Punct(b"!"),
    Token::Punct(b"="),
    Token::Punct(b"<"),
    Token::Punct(b">"),
    Token::Punct(b"."),
    Token::Punct(b":"),
    Token::Punct(b"?"),
    Token::Punct(b"->"),
    Token::Punct(b"->*"),
    Token::Punct(b".*"),
    Token::Punct(b"..."),
    Token::Punct(b"::"),
    Token::Punct(b"<<"),
    Token::Punct(b">>="),
    Token::Punct(b"("),
    Token::Punct(b"@"),
    Token::Punct(b"\\"),
    Token::Blank,
    Token::Newline,
    Token::Head(7),
    Token::Tail(4_294_967_295),
];

// The token reads back before each of these.
fn comes_back_before(rt: &impl Abort, alloc: Global, left: Token<'_>, tokens: &[Token<'_>]) {
    for right in tokens {
        comes_back(rt, alloc, &[left, *right], None);
    }
}

fn pairs_come_back(rt: &impl Abort, alloc: Global, tokens: &[Token<'_>]) {
    for left in tokens {
        comes_back_before(rt, alloc, *left, tokens);
    }
}

#[test]
fn all_pairs_come_back(rt: HostRuntime) {
    pairs_come_back(&rt, rt.alloc(), &TOKENS);
}
