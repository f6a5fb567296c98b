// Long webs as strings.
use std::alloc::{AllocError, Global};

/// A web that repeats a word between a prefix and a suffix.
pub fn repeated(
    alloc: Global,
    prefix: &str,
    words: &str,
    count: usize,
    back: &str,
) -> Result<String, AllocError> {
    let words = words.repeat(alloc, count)?;
    [prefix, words.as_str(), back].concat(alloc)
}

fn add(web: &mut String, alloc: Global, sign: &str, name: u32) -> Result<(), AllocError> {
    let word = format!(in alloc; " {sign}{name}")?;
    web.push_str(word.as_str())
}

// Uses of a name, and then a part of that name with these contents.
fn add_link(
    web: &mut String,
    alloc: Global,
    name: u32,
    uses: u32,
    text: &str,
) -> Result<(), AllocError> {
    for _ in 0..uses {
        add(web, alloc, "<", name)?;
    }
    add(web, alloc, "=", name)?;
    web.push_str(text)
}

/// A web whose program uses name 0 `uses` times, and in which each name but the last uses the next one `uses` times.
pub fn chain(
    alloc: Global,
    last: u32,
    uses: u32,
    text: &str,
    last_text: &str,
) -> Result<String, AllocError> {
    let mut web = ":".repeat(alloc, 1)?;
    for name in 0..last {
        add_link(&mut web, alloc, name, uses, text)?;
    }
    add_link(&mut web, alloc, last, uses, last_text)?;
    Ok(web)
}
