// The command line of `ctangle`.
ghost use Rattle.std.specs.Prelude.{◌≡◌, ◌≢◌, Some, None, map, option_map, string_bytes, slice_get, IfOk};
ghost use Rattle.std.specs.List.{after_last};
ghost use Rattle.std.specs.Option.{option_copied};
ghost use Rattle.cweb_tools.specs.CommandLine.{main_by, named_by, options_by, other_words, stem, with_shown};
ghost use Rattle.cweb_out.specs.Outputs.{is_slash};
ghost use Rattle.cweb_rules.specs.Bytes.{is_letter};

use crate::words::{MergeWords, can_name_file, extended, is_option, with_extension};
use cweb_lines::Stop;
use std::alloc::{AllocError, Global};

/// What the log of a run of `ctangle` has beside faults.
#[derive(Clone, Copy, Debug)]
pub struct Shown {
    pub banner: bool,
    pub progress: bool,
    pub closing: bool,
    pub statistics: bool,
}

/// The command line of `ctangle`: what the log has beside faults, and the names of the web, the change file and the
/// main output. `second` is the name that is tried if there is no web of the first name.
#[derive(Debug, Drop)]
pub struct Options {
    pub banner: bool,
    pub progress: bool,
    pub closing: bool,
    pub statistics: bool,
    pub web: String,
    pub second: Option<String>,
    pub change: Option<String>,
    pub main: String,
}

impl Options {
    ghost use Rattle.cweb_tools.specs.surface.Options.{options_of, Parses};

    /// Parses the arguments, without the program's name: files and options. It checks them before any allocation.
    pub fn read(alloc: Global, words: &[&str]) -> Result<Options, Stop>
        ensures { Parses (options_by (map (λ word. word.now) words.now)) options_of result }
    {
        let Some(shown) = Shown::read(words) else {
            return Err(Stop::Usage);
        };
        let Some(web) = other_word(words, 0) else {
            return Err(Stop::Usage);
        };
        if other_word(words, 3).is_some() {
            return Err(Stop::Usage);
        }
        Options::named(
            alloc,
            shown,
            web,
            other_word(words, 1),
            other_word(words, 2),
        )
    }

    /// The second name of the web, if any.
    pub fn second(&self) -> Option<&str>
        ensures { option_copied result ≡ (options_of self.now).names.merge.second }
    {
        self.second.as_ref().map(|name| name.as_str())
    }

    /// The name of the change file, if any.
    pub fn change(&self) -> Option<&str>
        ensures { option_copied result ≡ (options_of self.now).names.merge.change }
    {
        self.change.as_ref().map(|name| name.as_str())
    }

    /// What the log has beside faults.
    pub fn shown(&self) -> Shown
        ensures { result ≡ (options_of self.now).shown }
    {
        Shown {
            banner: self.banner,
            progress: self.progress,
            closing: self.closing,
            statistics: self.statistics,
        }
    }

    /// Checks the words for the web, the change file and the main output, and makes the options of them.
    fn named(
        alloc: Global,
        shown: Shown,
        web: &str,
        change: Option<&str>,
        out: Option<&str>,
    ) -> Result<Options, Stop>
        ensures { Parses (option_map (with_shown shown)
            (named_by web.now (option_copied change.entry) (option_copied out.entry)))
            options_of result }
    {
        if !out.is_none_or(can_name_file) {
            return Err(Stop::Usage);
        }
        let merge = MergeWords::by(alloc, web, change)?;
        let main = main_name(alloc, web, out)?;
        Ok(Options {
            banner: shown.banner,
            progress: shown.progress,
            closing: shown.closing,
            statistics: shown.statistics,
            web: merge.web,
            second: merge.second,
            change: merge.change,
            main,
        })
    }
}

impl Shown {
    ghost use Rattle.cweb_tools.specs.CommandLine.{letter_shown, letters_shown, shown_by_default};
    ghost use Rattle.cweb_tools.specs.CommandLine.{word_shown, words_shown};

    /// Parses the option words among these words: words of at least two bytes that begin with `-` or `+`, anywhere.
    /// Later letters win. `None` if one of them has a byte that is no letter.
    pub fn read(words: &[&str]) -> Option<Shown>
        ensures { result ≡ words_shown (map (λ word. word.now) words.now) shown_by_default }
    {
        let mut shown = Shown {
            banner: true,
            progress: true,
            closing: true,
            statistics: false,
        };
        'words: for word in words {
            if is_option(word.as_bytes()) {
                shown = shown.with_word(word.as_bytes())?;
            }
        }
        Some(shown)
    }

    fn with_word(self, word: &[u8]) -> Option<Shown>
        ensures { result ≡ word_shown word.now self }
    {
        match word {
            [sign, letters @ ..] => self.with_letters(*sign == b'+', letters),
            [] => Some(self),
        }
    }

    fn with_letters(self, on: bool, letters: &[u8]) -> Option<Shown>
        ensures { result ≡ letters_shown on letters.now self }
    {
        let mut shown = self;
        'letters: for letter in letters {
            if !is_letter(*letter) {
                return None;
            }
            shown = shown.with_letter(on, *letter);
        }
        Some(shown)
    }

    fn with_letter(mut self, on: bool, letter: u8) -> Shown
        ensures { result ≡ letter_shown on letter self }
    {
        match letter {
            b'b' => self.banner = on,
            b'p' => self.progress = on,
            b'h' => self.closing = on,
            b's' => self.statistics = on,
            _ => {}
        }
        self
    }
}

fn is_letter(byte: u8) -> bool
    ensures { result ≡ is_letter byte }
{
    byte.is_ascii_alphabetic()
}

/// The word at an index among those that are no option words.
fn other_word<'a>(words: &[&'a str], number: usize) -> Option<&'a str>
    ensures { option_copied result
        ≡ slice_get (other_words (map (λ word. word.now) words.now)) number }
{
    let mut left = number;
    'words: for word in words {
        if !is_option(word.as_bytes()) {
            if left == 0 {
                return Some(word);
            }
            left -= 1;
        }
    }
    None
}

/// The main output's name: its own word, which must be able to name a file, or a name made from the web's.
fn main_name(alloc: Global, web: &str, out: Option<&str>) -> Result<String, AllocError>
    requires { main_by web.now (option_copied out) ≢ None }
    ensures { IfOk result (λ name. main_by web.now (option_copied out.entry) ≡
        Some (string_bytes name)) }
{
    match out {
        Some(out) => extended(alloc, out, ".c"),
        None => with_extension(alloc, stem(web), ".c"),
    }
}

/// The last part of a path, without its extension: what follows its last dot, and the dot.
fn stem(word: &str) -> &str
    ensures { result.now ≡ stem word.now }
{
    let part = last_part(word);
    match part.rfind('.') {
        Some(dot) => &part[..dot],
        None => part,
    }
}

/// The bytes after the last slash.
fn last_part(word: &str) -> &str
    ensures { result.now ≡ after_last is_slash word.now }
{
    match word.rfind('/') {
        Some(slash) => &word[slash + 1..],
        None => word,
    }
}
