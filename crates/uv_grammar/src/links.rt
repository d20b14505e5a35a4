//! Links as people write them, of which one look finds the parts: what is before the path in `prefixes`, and the whole
//! in `plain`.
pub(crate) mod plain;
pub(crate) mod prefixes;
