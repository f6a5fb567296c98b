// Laws of the lexemes of a source and of the store of a web.
ghost use Rattle.std.specs.List.{list_all};
ghost use Rattle.std.specs.Prelude.{◌≡◌, ◌∷◌, ◌++◌, [], All, Bool, List, ℕ, codes, true, false};
ghost use Rattle.cweb_files.specs.declared.place.Place.{Place};
ghost use Rattle.cweb_lines.specs.surface.OpenedFileNames.{HasNoNewline};
ghost use Rattle.cweb_lines.specs.Lines.{Line};
ghost use Rattle.cweb_rules.specs.Bytes.{is_blank};
ghost use Rattle.cweb_rules.specs.Edges.{first_is};
ghost use Rattle.cweb_rules.specs.laws.Laws.{JoinsAll, is_quiet};
ghost use Rattle.cweb_rules.specs.Matches.{Lexeme};
ghost use Rattle.cweb_rules.specs.declared.context.Context.TheVariants.{CText};
ghost use Rattle.cweb_scan.specs.Effects.{Reading};
ghost use Rattle.cweb_scan.specs.Lexemes.{InPlainC, ReadsAlone, spelling_of, doubled, is_hash, significant, lex};
ghost use Rattle.cweb_scan.specs.Lexemes.{scanned};
ghost use Rattle.cweb_scan.specs.laws.Laws.{lexemes, IsReadAs, continues_token, OccurrencesAreLexemes};
ghost use Rattle.cweb_scan.specs.laws.Laws.{SectionsAreSectionStarts, AreLexemes, PlacesPass, LexemesKeepLines};
ghost use Rattle.cweb_scan.specs.laws.PartTokens.{MarksFollowUses, PartsAreWhole};
ghost use Rattle.cweb_scan.specs.State.{in_directive};
ghost use Rattle.cweb_scan.specs.surface.Scan.{IsBounded, web_size};
ghost use Rattle.cweb_store.specs.Parts.{Token};

/// The lexemes of a source are the only list that the rules allow.
pub fn lexemes_are_unique()
    ensures only { (r : Reading) (t : List ℕ) (ps : List Lexeme)
        → AreLexemes r t ps → ps ≡ lexemes r t }
    ensures are { (r : Reading) (t : List ℕ) → AreLexemes r t (lexemes r t) }
{}

/// The tokens of a store, and the bytes of its strings with repetitions, are at most the bytes plus lines of the web.
pub fn store_is_bounded()
    ensures { (lines : List Line) → IsBounded (scanned lines).store (web_size lines) }
{}

/// There is a section for each section start among the lexemes. The starred sections are those that `@*` begins.
pub fn sections_are_section_starts()
    ensures { (lines : List Line) → SectionsAreSectionStarts lines }
{}

/// The occurrences of the store are the lexemes that are names, in order.
pub fn occurrences_are_lexemes()
    ensures { (lines : List Line) → OccurrencesAreLexemes lines }
{}

/// Each part of C text begins with the Head and ends with the Tail of one of the sections. A macro begins with a Word.
pub fn parts_are_whole()
    ensures { (lines : List Line) → PartsAreWhole lines }
{}

/// In C text a Mark follows each use of a name and each Defs. The exception: a Join drops the Mark and follows itself.
pub fn marks_follow_uses()
    ensures { (lines : List Line) → MarksFollowUses lines }
{}

/// Blanks between two lexemes of C text outside directives change nothing: one blank more leaves the result unchanged.
pub fn blanks_change_nothing()
    ensures { (r : Reading) (b : ℕ) (t : List ℕ) → r.state.context ≡ CText
        → in_directive r.state ≡ false → is_blank b ≡ true → lex r (b ∷ t) ≡ lex r t }
{}

/// The places of Marks and faults are places of lines of the web.
pub fn places_are_those_of_lines()
    ensures { (test : Place → Bool) (lines : List Line)
        → All (λ line. test line.place ≡ true) lines → PlacesPass test (scanned lines) }
{}

/// The place of a lexeme is that of its first byte's line.
pub fn lexemes_keep_their_lines()
    ensures { (line : Line) (lines : List Line)
        → All (λ l. HasNoNewline l.bytes) (line ∷ lines) → LexemesKeepLines line lines }
{}

/// A token that reads alone is read as itself in an open C part outside directives, if the next byte can't continue it.
/// `#` is excepted, since it begins a directive. Layout, section comments and marks don't count here.
pub fn tokens_are_read_again()
    ensures { (joins : ℕ → ℕ → Bool) (r : Reading) (token : Token) (rest : List ℕ)
        → JoinsAll joins → InPlainC r.state
        → ReadsAlone token → is_hash token ≡ false
        → first_is (continues_token joins token) rest ≡ false
        → IsReadAs r (doubled (spelling_of token)) rest (significant (token ∷ [])) }
{}

/// A comment without `*` and `@`, or a newline, adds only layout, section comments and marks there, and no fault.
pub fn comments_and_newlines_are_skipped()
    ensures comments { (r : Reading) (text rest : List ℕ)
        → list_all is_quiet text ≡ true → InPlainC r.state
        → IsReadAs r (codes "/*" ++ (text ++ codes "*/")) rest [] }
    ensures line_ends { (r : Reading) (rest : List ℕ)
        → InPlainC r.state → IsReadAs r (codes "\n") rest [] }
{}
