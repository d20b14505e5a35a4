//! The formats of diagnostics.
ghost use Rattle.std.specs.Prelude.{◌≡◌};
ghost use Rattle.uv_report.specs.Format.{format_name, named_format, own_columns, takes_columns};
ghost use Rattle.uv_report.specs.Format as spec;

use crate::places::column::Columns;

/// How diagnostics are written.
#[derive(Clone, Copy, Debug, PartialEq, Eq)]
pub enum Format {
    /// A line for each diagnostic, as compilers write it.
    Gnu,
    /// A line for each diagnostic, as compilers write it, with the file's line and a caret below the place.
    Caret,
    /// A JSON object per diagnostic, one per line.
    Json,
    /// Workflow commands of GitHub.
    Github,
    /// A document of the Static Analysis Results Interchange Format, version 2.1.0.
    Sarif,
    /// A document of Checkstyle, in XML.
    Checkstyle,
    /// A document of JUnit, in XML.
    Junit,
    /// A report of GitLab on code quality, in JSON.
    Gitlab,
    /// A document of reviewdog's diagnostics, in JSON.
    Rdjson,
}

impl Format {
    /// The format's name.
    pub fn name(self) -> &'static str
        ensures { result.now ≡ format_name self }
    {
        match self {
            Format::Gnu => "gnu",
            Format::Caret => "caret",
            Format::Json => "json",
            Format::Github => "github",
            Format::Sarif => "sarif",
            Format::Checkstyle => "checkstyle",
            Format::Junit => "junit",
            Format::Gitlab => "gitlab",
            Format::Rdjson => "rdjson",
        }
    }

    /// Whether a diagnostic says in this format what to write in place of its text.
    pub fn shows_mended(self) -> bool
        ensures { result ≡ spec.shows_mended self }
    {
        match self {
            Format::Caret | Format::Json | Format::Sarif | Format::Rdjson => true,
            Format::Gnu | Format::Github | Format::Checkstyle | Format::Junit | Format::Gitlab => {
                false
            }
        }
    }

    /// The format with this name, or `None` if no format has it.
    pub fn of_name(name: &str) -> Option<Format>
        ensures { result ≡ named_format name.now }
    {
        match name {
            "gnu" => Some(Format::Gnu),
            "caret" => Some(Format::Caret),
            "json" => Some(Format::Json),
            "github" => Some(Format::Github),
            "sarif" => Some(Format::Sarif),
            "checkstyle" => Some(Format::Checkstyle),
            "junit" => Some(Format::Junit),
            "gitlab" => Some(Format::Gitlab),
            "rdjson" => Some(Format::Rdjson),
            _ => None,
        }
    }

    /// Whether the format takes columns that count this: SARIF has words only for code points and for code units of
    /// UTF-16, reviewdog counts bytes, and the others leave it open.
    pub fn takes_columns(self, columns: Columns) -> bool
        ensures { result ≡ takes_columns self columns }
    {
        match (self, columns) {
            (Format::Sarif, Columns::Bytes | Columns::Screen) => false,
            (Format::Rdjson, Columns::CodePoints | Columns::Utf16 | Columns::Screen) => false,
            (_, _) => true,
        }
    }

    /// What columns count in the format if nothing else is said: code points, or bytes for reviewdog.
    pub fn own_columns(self) -> Columns
        ensures { result ≡ own_columns self }
    {
        match self {
            Format::Rdjson => Columns::Bytes,
            Format::Gnu
            | Format::Caret
            | Format::Json
            | Format::Github
            | Format::Sarif
            | Format::Checkstyle
            | Format::Junit
            | Format::Gitlab => Columns::CodePoints,
        }
    }
}
