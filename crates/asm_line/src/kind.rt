//! What may be wrong with a line of source.

use thiserror::Error;

/// What is wrong with a line.
#[derive(Clone, Copy, Debug, PartialEq, Eq, Error)]
pub enum AsmKind {
    /// The mnemonic or the directive is unknown.
    #[error("Name")]
    Name,
    /// The line has another form.
    #[error("Syntax")]
    Syntax,
    /// A number is out of range.
    #[error("Number")]
    Number,
    /// The label or the directive is there already.
    #[error("Twice")]
    Twice,
    /// No word of RAM or ROM stands at the place.
    #[error("Place")]
    Place,
    /// The word is set already.
    #[error("Overlap")]
    Overlap,
    /// The label is not defined.
    #[error("Label")]
    Label,
    /// The target is out of reach.
    #[error("Reach")]
    Reach,
}
