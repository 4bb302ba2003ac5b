//! Which rows are of a board, and which hold its starts.

pub(crate) mod misfit;
pub(crate) mod misfitting;
pub(crate) mod shaping;
pub(crate) mod starting;
pub(crate) mod unheld;
