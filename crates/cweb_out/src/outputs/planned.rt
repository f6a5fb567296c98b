// A plan: the outputs of a web, in order.
ghost use Rattle.std.specs.Prelude.{◌≡◌, ◌<◌, ◌^◌, length};
ghost use Rattle.cweb_out.specs.Outputs.{Planned};
ghost use Rattle.cweb_out.specs.surface.Outputs.{output_name_at, root_at};
ghost use Rattle.cweb_out.specs.inner.Planning.{planned_of};

use cweb_store::NameId;
use std::marker::Model;

/// A file to write.
#[derive(Drop)]
pub struct Output {
    pub name: String,
    pub root: Option<NameId>,
}

/// The outputs of a web: the main file, then the files of names in order of their first occurrence as a file's. Each
/// name is one that a file can have, and each expansion ends.
#[derive(Drop)]
pub struct Plan {
    pub(crate) outputs: Vec<Output>,
    pub(crate) no_text: bool,
}

impl Model for Plan {
    ghost Value = { Planned };

    ghost view = { λ s. planned_of s.outputs.items s.no_text };

    ghost invariant = { λ s. length s.outputs.items < 2 ^ 32 };
}

impl Plan {
    /// The number of outputs. Output 0 is the main file.
    pub fn outputs(&self) -> u32
        ensures { result ≡ length self.now.outputs }
    {
        self.outputs.len() as u32
    }

    /// The name of an output.
    pub fn output_name(&self, number: u32) -> &str
        requires { number < length self.now.outputs }
        ensures { result.now ≡ output_name_at self.now.outputs number }
    {
        self.outputs[number as usize].name.as_str()
    }

    /// Whether the web has no unnamed part and no output but the main file.
    pub fn no_text(&self) -> bool
        ensures { result ≡ self.now.no_text }
    {
        self.no_text
    }

    /// The name whose list is this output, or `None` for the main file.
    pub fn root(&self, number: u32) -> Option<NameId>
        requires { number < length self.now.outputs }
        ensures { result ≡ root_at self.now.outputs number }
    {
        self.outputs[number as usize].root
    }
}
