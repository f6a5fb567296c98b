// Control codes: the effect of each in a context, and which ones begin a name.
ghost use Rattle.std.specs.Prelude.{◌≡◌, true};
ghost use Rattle.cweb_scan.specs.inner.MatchSteps.{effect_in, may_do};
ghost use Rattle.cweb_scan.specs.inner.MatchSteps as match_steps;

use cweb_rules::codes::{in_c, in_limbo, in_macro, in_tex};
use cweb_rules::{Context, Effect};

/// The effect of a code in a context.
pub fn effect_of(context: Context, letter: u8) -> Effect
    ensures value { result ≡ effect_in context letter }
    ensures may { may_do context result ≡ true }
{
    match context {
        Context::Limbo => in_limbo(letter),
        Context::TeX | Context::Definition(_) => in_tex(letter),
        Context::Macro => in_macro(letter),
        Context::CText => in_c(letter),
    }
}

/// Whether a code begins a name.
pub fn is_name_effect(effect: Effect) -> bool
    ensures { result ≡ match_steps.is_name_effect effect }
{
    matches!(effect, Effect::Named)
}
