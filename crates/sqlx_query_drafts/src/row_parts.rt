//! What a row of a tuple is made of, while a closure writes it.
use crate::growing_text::GrowingText;

/// The text and the arguments of the builder that a row continues, and whether the row has an entry.
#[derive(Drop)]
pub struct RowParts<A> {
    pub(crate) text: GrowingText,
    pub(crate) arguments: A,
    pub(crate) built: bool,
    pub has_piece: bool,
}
