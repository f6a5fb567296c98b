// The contexts of the rules.
use cweb_files::Place;

/// The part of a web that a position is in, as far as the rules depend on it.
#[derive(Clone, Copy, Debug, PartialEq, Eq)]
pub enum Context {
    /// Before the first section.
    Limbo,
    /// The TeX and middle parts of a section.
    TeX,
    /// After the `@d` at this place, up to the identifier that it defines.
    Definition(Place),
    /// The replacement text of a macro.
    Macro,
    /// The C part of a section.
    CText,
}
