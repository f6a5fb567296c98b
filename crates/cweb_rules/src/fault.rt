// The faults of a web that a scan reports.
use cweb_files::Place;

/// What is wrong at a place of a web.
#[derive(Clone, Copy, Debug, PartialEq, Eq)]
pub enum ScanKind {
    /// A control code that isn't allowed before the first section.
    DoubleAtInLimbo,
    /// `@l` without two hexadecimal digits of value 0x80 or more and a space or tab after them.
    ImproperHexNumber,
    /// `@l` with a replacement of more than `MAX_REPLACEMENT` bytes.
    ReplacementTooLong,
    /// `@l` after the first section began.
    LetterOutsideLimbo,
    /// A section name that a section start or the end of the source ends.
    NameDidNotEnd,
    /// A section name that the opener of another one ends.
    NamesDoNotNest,
    /// A comment that a section start or the end of the source ends.
    CommentDidNotEnd,
    /// A literal that its line, a section start or the end of the source ends.
    StringDidNotEnd,
    /// An `@` in a literal that isn't doubled.
    DoubleAtInString,
    /// A control text that its line or another code ends.
    ControlTextDidNotEnd,
    /// `@'` without one character and `'`.
    FaultyConstant,
    /// `@d`, `@f`, `@s`, `@c` or `@p` in C text.
    IgnoredInCText,
    /// In C text, a name before `=` or `+=`, which opens a part elsewhere.
    MissingAt,
    /// `@h` in a macro.
    DefsInMacro,
    /// `@d` without an identifier.
    DefinitionDropped,
}

/// A fault and the line where its item begins. For `DoubleAtInString` it is the line of the `@`.
#[derive(Clone, Copy, Debug, PartialEq, Eq)]
pub struct ScanFault {
    pub kind: ScanKind,
    pub place: Place,
}
