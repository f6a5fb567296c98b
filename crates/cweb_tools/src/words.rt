// The command line of `wmerge`.
ghost use Rattle.std.specs.Prelude.{◌≡◌, ◌++◌, Some, None, map, codes, string_bytes, option_map, IfOk};
ghost use Rattle.std.specs.List.{list_any};
ghost use Rattle.std.specs.Option.{option_copied};
ghost use Rattle.cweb_tools.specs.CommandLine.{web_names_by, is_dash, is_option, can_name_file, has_extension};
ghost use Rattle.cweb_tools.specs.CommandLine.{extended, second_try};
ghost use Rattle.cweb_out.specs.Outputs.{is_control};

use cweb_lines::Stop;
use std::alloc::{AllocError, Global};

/// The file names of a command line of `wmerge`. `second` is tried if there is no file of the web's name.
#[derive(Debug, Drop)]
pub struct MergeWords {
    pub web: String,
    pub second: Option<String>,
    pub change: Option<String>,
}

impl MergeWords {
    ghost use Rattle.cweb_tools.specs.CommandLine.{merge_by};
    ghost use Rattle.cweb_tools.specs.surface.Options.{Parses};
    ghost use Rattle.cweb_tools.specs.inner.Variables.{merge_word_names};

    /// Parses the arguments, without the program's name, and adds extensions. It checks them before any allocation.
    pub fn read(alloc: Global, words: &[&str]) -> Result<MergeWords, Stop>
        ensures { Parses (web_names_by (map (λ word. word.now) words.now)) merge_word_names result }
    {
        match words {
            [web] => MergeWords::by(alloc, web, None),
            [web, change] => MergeWords::by(alloc, web, Some(change)),
            _ => Err(Stop::Usage),
        }
    }

    /// Checks the words for the web and the change file, and makes names of them. A lone `-` means no change file.
    pub(crate) fn by(alloc: Global, web: &str, change: Option<&str>) -> Result<MergeWords, Stop>
        ensures { Parses (merge_by web.now (option_copied change.entry)) merge_word_names result }
    {
        let change = change.filter(|word| !is_dash(word));
        if !can_name_file(web) || !change.is_none_or(can_name_file) {
            return Err(Stop::Usage);
        }
        let second = second_try(alloc, web)?;
        let change = change_file(alloc, change)?;
        let web = extended(alloc, web, ".w")?;
        Ok(MergeWords {
            web,
            second,
            change,
        })
    }

    /// The second name of the web, if any.
    pub fn second(&self) -> Option<&str>
        ensures { option_copied result ≡ (merge_word_names self.now).second }
    {
        self.second.as_ref().map(|name| name.as_str())
    }

    /// The name of the change file, if any.
    pub fn change(&self) -> Option<&str>
        ensures { option_copied result ≡ (merge_word_names self.now).change }
    {
        self.change.as_ref().map(|name| name.as_str())
    }
}

pub(crate) fn can_name_file(word: &str) -> bool
    ensures { result ≡ can_name_file word.now }
{
    let bytes = word.as_bytes();
    !bytes.is_empty() && !has_control(bytes) && !is_dash(word) && !is_option(bytes)
}

fn has_control(word: &[u8]) -> bool
    ensures { result ≡ list_any is_control word.now }
{
    word.iter().any(|byte| is_control(*byte))
}

fn is_control(byte: u8) -> bool
    ensures { result ≡ is_control byte }
{
    byte < 32 || byte == 127
}

/// Whether the word is a lone `-`, which means no change file.
fn is_dash(word: &str) -> bool
    ensures { result ≡ is_dash word.now }
{
    word == "-"
}

/// Whether the word has at least two bytes and begins with `-` or `+`.
pub(crate) fn is_option(word: &[u8]) -> bool
    ensures { result ≡ is_option word.now }
{
    match word {
        [first, _, ..] => *first == b'-' || *first == b'+',
        _ => false,
    }
}

/// Whether the last part of a path has a dot.
fn has_extension(word: &str) -> bool
    ensures { result ≡ has_extension word.now }
{
    let mut has_dot = false;
    'bytes: for byte in word.as_bytes() {
        if *byte == b'/' {
            has_dot = false;
        } else if *byte == b'.' {
            has_dot = true;
        }
    }
    has_dot
}

fn change_file(alloc: Global, word: Option<&str>) -> Result<Option<String>, AllocError>
    ensures { IfOk result (λ name. option_map (λ s. string_bytes s) name ≡
        option_map (λ w. extended w (codes ".ch")) (option_copied word.entry)) }
{
    match word {
        Some(word) => Ok(Some(extended(alloc, word, ".ch")?)),
        None => Ok(None),
    }
}

fn second_try(alloc: Global, word: &str) -> Result<Option<String>, AllocError>
    ensures { IfOk result (λ name. option_map (λ s. string_bytes s) name ≡ second_try word.now) }
{
    if has_extension(word) {
        return Ok(None);
    }
    Ok(Some(with_extension(alloc, word, ".web")?))
}

/// The file name of a word: the word itself if it has an extension, else with this one.
pub(crate) fn extended(alloc: Global, word: &str, extension: &str) -> Result<String, AllocError>
    ensures { IfOk result (λ name. string_bytes name ≡ extended word.now extension.now) }
{
    let appended = if has_extension(word) { "" } else { extension };
    with_extension(alloc, word, appended)
}

pub(crate) fn with_extension(
    alloc: Global,
    word: &str,
    extension: &str,
) -> Result<String, AllocError>
    ensures { IfOk result (λ name. string_bytes name ≡ word.now ++ extension.now) }
{
    let mut name = String::from_str(alloc, word)?;
    name.push_str(extension)?;
    Ok(name)
}
