//! What is known at a place: sets of bytes, spans of numbers, sources of registers, and rows of
//! them.

pub(crate) mod byte_set;
pub(crate) mod good_set;
pub(crate) mod kind;
pub(crate) mod mask;
pub(crate) mod page_set;
pub(crate) mod part;
pub(crate) mod parts;
pub(crate) mod protect_set;
pub(crate) mod row;
pub(crate) mod row_cover;
pub(crate) mod row_part;
pub(crate) mod source;
pub(crate) mod span;
pub(crate) mod uncovering;
