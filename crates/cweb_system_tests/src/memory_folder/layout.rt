// What holds of paths and places, whatever the calls of a run change.
ghost use Rattle.std.specs.Prelude.{◌≡◌, ℕ, List};
ghost use Rattle.std.specs.Option.{option_copied};
ghost use Rattle.cweb_system_tests.specs.inner.Layout.{place_in, target_in, value_of};

use cweb_system::FileFault;
use std::alloc::Global;

/// What is known of a path or a place.
#[derive(Drop)]
pub struct Fact<V: Drop> {
    pub path: String,
    pub value: V,
}

/// What the calls of a run don't change.
#[derive(Drop)]
pub struct Layout {
    /// The place that a path names. Without an entry, it is a place of its own.
    pub spellings: Vec<Fact<String>>,
    /// The path that the link at a place leads to.
    pub links: Vec<Fact<String>>,
    /// Why nothing can be created, renamed or removed at a place.
    pub refusals: Vec<Fact<FileFault>>,
    /// The permissions of a file that is created without any.
    pub new_mode: u32,
}

/// The first fact of a path.
fn first_of<'a, V: Drop>(facts: &'a [Fact<V>], path: &str) -> Option<&'a V>
    ensures { option_copied result ≡ value_of facts.now path.now }
{
    for fact in facts {
        if fact.path.as_str() == path {
            return Some(&fact.value);
        }
    }
    None
}

impl Layout {
    /// Each path is a place of its own. There are no links or refusals.
    pub fn new(alloc: Global, new_mode: u32) -> Layout
        ensures { (path : List ℕ) → place_in result path ≡ path }
    {
        Layout {
            spellings: Vec::new(alloc),
            links: Vec::new(alloc),
            refusals: Vec::new(alloc),
            new_mode,
        }
    }

    /// The place that a path names.
    pub fn place<'a>(&'a self, path: &'a str) -> &'a str
        ensures { result.now ≡ place_in self.now path.now }
    {
        match first_of(&self.spellings, path) {
            Some(place) => place.as_str(),
            None => path,
        }
    }

    /// The path that the link at a place leads to.
    pub fn target(&self, place: &str) -> Option<&str>
        ensures { option_copied result ≡ target_in self.now place.now }
    {
        match first_of(&self.links, place) {
            Some(target) => Some(target.as_str()),
            None => None,
        }
    }

    /// Why nothing can be created, renamed or removed at a place.
    pub fn refusal(&self, place: &str) -> Option<FileFault> {
        first_of(&self.refusals, place).copied()
    }
}
