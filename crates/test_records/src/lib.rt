//! Tests of records: what `uv_model` says about code points, names, records and their texts, and which records
//! `uv_resolve` makes. They are in a crate above these, so that none of them is proved twice. The one function that
//! makes the texts of their records is proved.
#![tactic(auto)]

mod ascii_texts;
#[cfg(test)]
mod characters;
#[cfg(test)]
mod names;
#[cfg(test)]
mod paths;
#[cfg(test)]
mod record;
#[cfg(test)]
mod resolved;
#[cfg(test)]
mod texts;
#[cfg(test)]
mod well_formedness;

pub use ascii_texts::ascii;
