//! The places of a text: their columns.
pub(crate) mod column;
pub(crate) mod column_counter;
