// The effects of control codes.
use crate::fault::ScanKind;

/// The effect of a control code in its context.
#[derive(Clone, Copy)]
pub enum Effect {
    /// The code emits nothing.
    Nothing,
    /// `@d`: begins a macro definition.
    Define,
    /// `@f` and `@s`: a format definition, skipped like TeX.
    Format,
    /// `@c` and `@p`: begins an unnamed C part.
    Program,
    /// `@<` and `@(`: a section name begins.
    Named,
    /// `@l`: a byte and its replacement.
    Letter,
    /// A control text up to `@>`, which emits nothing.
    ControlText,
    /// `@=`: a control text that is emitted verbatim.
    Verbatim,
    /// `@'`: the code of a character.
    Constant,
    /// `@h`: the macros are inserted here.
    InsertDefs,
    /// `@&`: joins the tokens on both sides.
    Joins,
    /// `@@`: emits the punctuator `@`.
    EmitAt,
    /// The code isn't allowed here.
    Faulty(ScanKind),
}
