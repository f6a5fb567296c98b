// Laws of the rules.
ghost use Rattle.std.specs.Prelude.{◌≡◌, ◌+◌, ℕ, Bool, true, false, List, ◌∷◌, ◌++◌, codes, length};
ghost use Rattle.std.specs.List.{list_all};
ghost use Rattle.cweb_rules.specs.Edges.{first_is};
ghost use Rattle.cweb_rules.specs.laws.Laws.{JoinsAll, IsToken, continues_lexeme, begins_as, is_quiet, FitsAndPays};
ghost use Rattle.cweb_rules.specs.laws.Laws.{ItemsEndAtTheirFirstEnd, RulesPassBytes};
ghost use Rattle.cweb_rules.specs.Matches.{match_in, Kind, Comment, rule_match};
ghost use Rattle.cweb_rules.specs.declared.context.Context.{Context};
ghost use Rattle.cweb_rules.specs.declared.context.Context.TheVariants.{CText};
ghost use Rattle.cweb_rules.specs.declared.end.End.TheVariants.{Closed};

/// The first lexeme of a nonempty source isn't empty, is within it, and is as long as `Pays` requires of its kind.
pub fn matches_fit_and_pay()
    ensures { (c : Context) (includes : Bool) (b : ℕ) (t : List ℕ)
        → FitsAndPays c (b ∷ t) (match_in c includes (b ∷ t)) }
{}

/// A source that is one token of C text is the first lexeme of each longer source whose next byte may not continue it,
/// outside `#include` lines. `joins` may hold for more pairs of bytes than the table of punctuators has.
pub fn tokens_end_by_themselves()
    ensures { (joins : ℕ → ℕ → Bool) (kind : Kind) (token more : List ℕ)
        → JoinsAll joins → IsToken kind token
        → first_is (continues_lexeme joins kind token) more ≡ false
        → match_in CText false (token ++ more) ≡ rule_match kind (length token) }
{}

/// A token's first byte fits its kind: no digit begins an identifier, and no word byte, quote or blank a punctuator.
pub fn tokens_begin_by_kind()
    ensures { (kind : Kind) (token : List ℕ) → IsToken kind token
        → first_is (begins_as kind) token ≡ true }
{}

/// A comment without `*` and `@` ends at its `*/`, whatever follows it in C text, outside `#include` lines.
pub fn comments_end_by_themselves()
    ensures { (text more : List ℕ) → list_all is_quiet text ≡ true
        → match_in CText false (codes "/*" ++ (text ++ (codes "*/" ++ more)))
        ≡ rule_match (Comment Closed) (2 + (length text + 2)) }
{}

/// No unit of an item begins with the item's end: at the start of each unit the rule goes on. After the last unit the
/// rule ends the item, or the source ends. The rules of all items have no empty units.
pub fn items_end_at_their_first_end()
    ensures first { ItemsEndAtTheirFirstEnd }
    ensures rules { RulesPassBytes }
{}
