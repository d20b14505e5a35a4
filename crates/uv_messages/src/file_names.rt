//! What the end of a file's name says about it: whether it is a list or a document.

// How the names of lists end.
const LIST_ENDS: [&str; 5] = [".txt", ".csv", ".tsv", ".json", ".links"];

// How the names of documents end: of HTML, of XML with its feeds, and of Markdown.
const DOCUMENT_ENDS: [&str; 11] = [
    ".html",
    ".htm",
    ".xhtml",
    ".xht",
    ".xml",
    ".rss",
    ".atom",
    ".rdf",
    ".svg",
    ".md",
    ".markdown",
];

/// Whether a text looks like the name of a file: it ends like the name of a list or of a document, and has no `:`, `?`,
/// `#` or space. These are in URLs, and rarely in the names of files.
pub(crate) fn names_file(text: &str) -> bool {
    (has_end(text, &LIST_ENDS) || has_document_end(text))
        && !text.as_bytes().iter().any(|byte| b":?# ".contains(byte))
}

/// Whether a name ends like a document's.
pub fn has_document_end(name: &str) -> bool {
    has_end(name, &DOCUMENT_ENDS)
}

// Whether a name has one of these endings, in any ASCII case.
fn has_end(name: &str, ends: &[&str]) -> bool {
    let name = name.as_bytes();
    ends.iter().any(|end| name[name.len().saturating_sub(end.len())..].eq_ignore_ascii_case(
        end.as_bytes(),
    ))
}
