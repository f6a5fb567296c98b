// Which outputs are targets of the rule that `wdep` prints.
ghost use Rattle.std.specs.Prelude.{◌≡◌, length, map};
ghost use Rattle.cweb_tools.specs.Depend.{among_outputs, targets_after, targets_by, targets_by_prefix};

use cweb_out::Plan;

/// The targets of the rule.
#[derive(Clone, Copy)]
pub(crate) enum Targets {
    /// All outputs.
    All,
    /// The main file alone. Ninja refuses a target that its own rule doesn't name.
    Main,
}

impl Targets {
    /// The targets that the option words ask for: the main file alone after `+m`, all after `-m`. The last `m` counts.
    pub(crate) fn of(words: &[&str]) -> Targets
        ensures { result ≡ targets_by (map (λ word. word.now) words.now) }
    {
        let mut targets = Targets::All;
        'words: for word in words {
            targets = targets.after(word.as_bytes());
        }
        targets
    }

    /// How many outputs of a plan are targets.
    pub(crate) fn count(self, plan: &Plan) -> u32
        ensures { result ≡ length (among_outputs self plan.now.outputs) }
    {
        match self {
            Targets::All => plan.outputs(),
            Targets::Main => plan.outputs().min(1),
        }
    }

    fn after(self, word: &[u8]) -> Targets
        ensures { result ≡ targets_after self word.now }
    {
        match word {
            [prefix, letters @ ..] if letters.contains(&b'm') => self.by_prefix(*prefix),
            _ => self,
        }
    }

    fn by_prefix(self, prefix: u8) -> Targets
        ensures { result ≡ targets_by_prefix self prefix }
    {
        match prefix {
            b'+' => Targets::Main,
            b'-' => Targets::All,
            _ => self,
        }
    }
}
