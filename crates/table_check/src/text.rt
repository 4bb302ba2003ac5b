//! Tables as text.

pub(crate) mod fault;
pub(crate) mod part;
pub(crate) mod pass;
pub(crate) mod reading;
pub(crate) mod row_line;
pub(crate) mod set_line;
pub(crate) mod shape;
pub(crate) mod span_line;
pub(crate) mod typed;
pub(crate) mod version;
pub(crate) mod writing;
pub(crate) mod written;
