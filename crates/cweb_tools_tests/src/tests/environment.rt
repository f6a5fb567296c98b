// The arguments and the folder of included files, from an environment that the test makes.
ghost use Rattle.std.specs.Prelude.{◌≡◌, IfOk, None, Some, codes, if◌then◌else◌, map, option_map};
ghost use Rattle.std.specs.Str.{bytes_eq};

use super::wanted::{holds, same_name};
use cweb_tools::{Environment, read_args, read_inputs};
use std::alloc::{AllocError, Global};
use std::process::Abort;

/// An environment with these arguments. No variable but CWEBINPUTS is set.
#[derive(Drop)]
struct FixedEnvironment {
    words: Vec<Vec<u8>>,
    inputs: Option<Vec<u8>>,
}

impl Environment for FixedEnvironment {
    ghost known = { λ env. Some (record {
      args = map (λ word. word.items) env.words.items;
      value = λ name. if bytes_eq name (codes "CWEBINPUTS")
          then option_map (λ text. text.items) env.inputs else None;
    }) };

    fn argument(&self, alloc: Global, index: usize) -> Result<Option<Vec<u8>>, AllocError> {
        match self.words.get(index) {
            Some(word) => copied(alloc, word.as_slice()),
            None => Ok(None),
        }
    }

    fn variable(&self, alloc: Global, name: &str) -> Result<Option<Vec<u8>>, AllocError> {
        match &self.inputs {
            Some(text) if name == "CWEBINPUTS" => copied(alloc, text.as_slice()),
            _ => Ok(None),
        }
    }
}

fn copied(alloc: Global, bytes: &[u8]) -> Result<Option<Vec<u8>>, AllocError>
    ensures { IfOk result (λ found. option_map (λ copy. copy.items) found ≡ Some bytes.now) }
{
    Ok(Some(Vec::from_slice(alloc, bytes)?))
}

/// An environment with these arguments and this value of CWEBINPUTS.
fn environment(
    rt: &(impl Abort + AllocGlobal),
    words: &[&[u8]],
    inputs: Option<&[u8]>,
) -> FixedEnvironment {
    let mut owned = Vec::new(rt.alloc());
    for word in words {
        let word = Vec::from_slice(rt.alloc(), word).expect(rt, "memory");
        owned.push(word).expect(rt, "memory");
    }
    FixedEnvironment {
        words: owned,
        inputs: inputs.map(|text| Vec::from_slice(rt.alloc(), text).expect(rt, "memory")),
    }
}

fn check_words(rt: &(impl Abort + AllocGlobal), words: &[&[u8]], want: &[&str]) {
    let env = environment(rt, words, None);
    let read = read_args(rt.alloc(), &env).expect(rt, "memory");
    holds(rt, read.len() == want.len());
    for (word, wanted) in read.iter().zip(want) {
        same_name(rt, Some(word.as_str()), Some(*wanted));
    }
}

fn check_inputs(rt: &(impl Abort + AllocGlobal), inputs: Option<&[u8]>, want: Option<&str>) {
    let env = environment(rt, &[], inputs);
    let read = read_inputs(rt.alloc(), &env).expect(rt, "memory");
    same_name(rt, read.as_deref(), want);
}

#[test]
fn arguments_are_words_if_all_are_text(rt: HostRuntime) {
    check_words(&rt, &[], &[]);
    check_words(
        &rt,
        &[b"hello", b"", b"+s", b"b \xc3\xa4"],
        &["hello", "", "+s", "b \u{e4}"],
    );
    check_words(&rt, &[b"hello", b"\xff"], &[]);
}

#[test]
fn the_folder_of_included_files_is_text(rt: HostRuntime) {
    check_inputs(&rt, None, None);
    check_inputs(&rt, Some(b"/a folder"), Some("/a folder"));
    check_inputs(&rt, Some(b""), Some(""));
    check_inputs(&rt, Some(b"\xff"), None);
}
