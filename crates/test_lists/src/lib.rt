//! Tests of lists: how `uv_lines` cuts a list into lines and what a reporter says about each, what `uv_links` and
//! `uv_lint` report, and what `uv_filter` writes in place of its lines, also over readers and writers that fail. They
//! are in a crate above these, so that none of them is proved twice. The one function that counts how many lines have
//! ended is proved.
#![tactic(auto)]

#[cfg(test)]
mod filter;
mod line_ends;
#[cfg(test)]
mod lines;
#[cfg(test)]
mod links;
#[cfg(test)]
mod lint;

pub use line_ends::line_feeds;
