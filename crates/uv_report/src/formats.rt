//! The formats: each writes a diagnostic in its own way, and some also a document around the diagnostics. `fingerprint`
//! has what tells one diagnostic from another, and `uri` the names of files as paths.
pub(crate) mod caret;
pub(crate) mod checkstyle;
pub(crate) mod fingerprint;
pub(crate) mod github;
pub(crate) mod gitlab;
pub(crate) mod gnu;
pub(crate) mod json_lines;
pub(crate) mod junit;
pub(crate) mod rdjson;
pub(crate) mod sarif;
pub(crate) mod uri;
