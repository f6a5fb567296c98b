// The text that `wdep` prints: rules as in a compiler's depfile.
ghost use Rattle.std.specs.Prelude.{◌≡◌, ◌++◌, [], codes, drop, fold, map, IfOk, OnOk};
ghost use Rattle.std.specs.List.{flat_map};
ghost use Rattle.cweb_lines.specs.surface.OpenedFileNames.{opened_file_names};
ghost use Rattle.cweb_tools.specs.Depend.{among_outputs};
ghost use Rattle.cweb_tools.specs.Depfile.{add_word, depfile, each_once, empty_rule, escaped};
ghost use Rattle.cweb_tools.specs.Depfile.{has_equals, leader, prerequisite_words, target_words};
ghost use Rattle.cweb_tools.specs.inner.RuleModel.{keys_of, lead_words, wrapped};

mod escape;

use crate::depfile::escape::{Position, append_escaped};
use crate::rule_targets::Targets;
use cweb_files::FileId;
use cweb_lines::FileNames;
use cweb_out::Plan;
use std::alloc::{AllocError, Global};
use std::collections::BTreeSet;

/// The length that a line isn't made to exceed. A longer name has a line of its own.
const WIDTH: usize = 78;

/// A file that is always there.
const ALWAYS: &str = "/dev/null";

/// The rules for the outputs of a plan, which are made from these files.
pub(crate) fn depfile(
    alloc: Global,
    plan: &Plan,
    targets: Targets,
    names: &FileNames,
) -> Result<Vec<u8>, AllocError>
    ensures { IfOk result (λ text. text.items ≡ depfile
        (map (λ output. output.name) (among_outputs targets plan.now.outputs))
        (each_once (opened_file_names names.now))) }
{
    let inputs = each_once(alloc, names)?;
    let mut rule = RuleText::new(alloc);
    rule.add_targets(plan, targets)?;
    rule.add_lead(inputs.as_slice())?;
    rule.add_prerequisites(inputs.as_slice())?;
    rule.finish(inputs.as_slice())
}

/// The names of the opened files, each once. The set is sorted, so no choice of names makes this slow.
fn each_once<'a>(alloc: Global, names: &'a FileNames) -> Result<Vec<&'a str>, AllocError>
    ensures { IfOk result (λ list. keys_of list.items ≡ each_once (opened_file_names names.now)) }
{
    let mut inputs = Vec::new(alloc);
    let mut known = BTreeSet::new(alloc);
    'names: for id in 0..names.count() {
        let name = names.get(FileId(id));
        if known.insert(name)? {
            inputs.push(name)?;
        }
    }
    Ok(inputs)
}

/// The text of a rule so far.
#[derive(Drop)]
struct RuleText {
    text: Vec<u8>,
    /// The length of the last line.
    column: usize,
    /// The word that is added next.
    word: Vec<u8>,
}

impl RuleText {
    fn new(alloc: Global) -> RuleText
        ensures { wrapped result ≡ record { text = []; column = 0 } }
    {
        RuleText {
            text: Vec::new(alloc),
            column: 0,
            word: Vec::new(alloc),
        }
    }

    /// Adds the outputs of a plan that are targets.
    fn add_targets(&mut self, plan: &Plan, targets: Targets) -> Result<(), AllocError>
        ensures { OnOk result (wrapped self.new ≡ fold add_word (wrapped self.old)
            (target_words (map (λ output. output.name) (among_outputs targets plan.now.outputs)))) }
    {
        let outputs = targets.count(plan);
        'targets: for output in 0..outputs {
            self.begin_word(plan.output_name(output), Position::Target)?;
            if output + 1 == outputs {
                self.word.push(b':')?;
            }
            self.add_word()?;
        }
        Ok(())
    }

    /// Adds what comes before the inputs: a file that is always there, if the first input's name has `=`.
    fn add_lead(&mut self, inputs: &[&str]) -> Result<(), AllocError>
        ensures { OnOk result (wrapped self.new ≡ fold add_word (wrapped self.old)
            (lead_words (keys_of inputs.now))) }
    {
        match inputs {
            [first, ..] if has_equals(first) => {
                self.begin_word(ALWAYS, Position::Inner)?;
                self.add_word()
            }
            _ => Ok(()),
        }
    }

    /// Adds the inputs.
    fn add_prerequisites(&mut self, inputs: &[&str]) -> Result<(), AllocError>
        ensures { OnOk result (wrapped self.new ≡ fold add_word (wrapped self.old)
            (prerequisite_words (keys_of inputs.now))) }
    {
        let count = inputs.len();
        'inputs: for at in 0..count {
            let position = if at + 1 == count {
                Position::Last
            } else {
                Position::Inner
            };
            self.begin_word(inputs[at], position)?;
            self.add_word()?;
        }
        Ok(())
    }

    /// Ends the rule, and adds an empty rule for each input but the first.
    fn finish(self, inputs: &[&str]) -> Result<Vec<u8>, AllocError>
        ensures { IfOk result (λ text. text.items ≡ (wrapped self).text ++ (codes "\n"
            ++ flat_map (empty_rule (leader (keys_of inputs.now))) (drop 1 (keys_of inputs.now)))) }
    {
        let mut text = self.text;
        text.push(b'\n')?;
        let lead = leader(inputs);
        'inputs: for at in 1..inputs.len() {
            append_empty_rule(&mut text, lead, inputs[at])?;
        }
        Ok(text)
    }

    /// Makes a name the next word.
    fn begin_word(&mut self, name: &str, position: Position) -> Result<(), AllocError>
        ensures word { OnOk result (self.new.word.items ≡ escaped position name.now) }
        ensures text { wrapped self.new ≡ wrapped self.old }
    {
        self.word.clear();
        append_escaped(&mut self.word, name.as_bytes(), position)
    }

    /// Adds the next word: to the line if there is room, otherwise to a new one.
    fn add_word(&mut self) -> Result<(), AllocError>
        ensures { OnOk result (wrapped self.new ≡ add_word (wrapped self.old) self.old.word.items) }
    {
        let len = self.word.len();
        if self.column == 0 {
            self.column = len;
        } else if self.column < WIDTH && len < WIDTH - self.column {
            self.text.push(b' ')?;
            self.column += 1 + len;
        } else {
            self.text.extend_from_slice(b" \\\n ")?;
            self.column = 1 + len;
        }
        self.text.extend_from_slice(self.word.as_slice())
    }
}

/// Whether a name has `=`.
fn has_equals(name: &str) -> bool
    ensures { result ≡ has_equals name.now }
{
    name.as_bytes().contains(&b'=')
}

/// The first prerequisite of a rule with these inputs. It has no `=`.
fn leader<'a>(inputs: &[&'a str]) -> &'a str
    ensures { result.now ≡ leader (keys_of inputs.now) }
{
    match inputs {
        [] => "",
        [first, ..] if has_equals(first) => ALWAYS,
        [first, ..] => first,
    }
}

/// Appends an empty rule for a name.
fn append_empty_rule(text: &mut Vec<u8>, lead: &str, name: &str) -> Result<(), AllocError>
    ensures { OnOk result (text.new.items ≡ text.old.items ++ empty_rule lead.now name.now) }
{
    if has_equals(name) {
        append_escaped(text, lead.as_bytes(), Position::Target)?;
        text.push(b' ')?;
    }
    append_escaped(text, name.as_bytes(), Position::Target)?;
    text.extend_from_slice(b":\n")
}
