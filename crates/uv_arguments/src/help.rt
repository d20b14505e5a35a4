//! The texts of the help: for its short form examples of each command, and for its long form also what the command
//! prints, and its exit statuses. Lines have at most 80 columns.

pub(crate) const ABOUT: &str =
    "Checks how links are written (WHATWG URL Standard). Opens no connection.";

pub(crate) const EXAMPLES: &str = "Examples:
  urlcheck check 'https://example.com/a b'
  urlcheck lint --format caret links.txt";

pub(crate) const NOTES: &str = "Exit statuses:
  0  every text is as it should be, or help was asked for
  1  a text is refused or can't be mended, a line isn't ok, or a case fails
  2  the arguments, the base or the file of vectors are refused, or a file of
     links couldn't be read or written
  3  out of memory, or reading or writing failed

With most ends by 2 or 3, the last line on standard error is a word for scripts,
such as `words` for arguments, `read`, `write` or `memory`.

Examples:
  urlcheck check 'https://example.com/a b'
  urlcheck lint --format caret links.txt
  urlcheck help lint";

pub(crate) const CHECK_EXAMPLES: &str = "Examples:
  urlcheck check 'https://example.com/a b'
  urlcheck check --base https://example.com/a/ ../b";

pub(crate) const CHECK_NOTES: &str =
    "Prints `valid` and the parts of the URL, or `refused PLACE RULE`.
PLACE counts code points from 0, and `urlcheck explain RULE` says more.

Exit statuses:
  0  the text is valid
  1  the text is refused
  2  the arguments or the base are refused
  3  out of memory, or the output failed

Examples:
  urlcheck check 'https://example.com/a b'
  urlcheck check --base https://example.com/a/ ../b";

pub(crate) const LINT_EXAMPLES: &str = "Examples:
  urlcheck lint --format caret links.txt
  urlcheck lint --format sarif links.txt >urlcheck.sarif
  urlcheck lint - <links.txt";

pub(crate) const LINT_NOTES: &str =
    "Prints for each refused link its file, line and column, what is wrong there, and
the rule. A document isn't a list: urlcheck-documents finds the links in one.

Exit statuses:
  0  no line is refused
  1  a line is refused
  2  the arguments or the base are refused, or a file can't be read; the others
     are checked
  3  out of memory, a file has too many lines, or the output failed

Examples:
  urlcheck lint --format caret links.txt
  urlcheck lint --format sarif links.txt >urlcheck.sarif
  urlcheck lint - <links.txt";

pub(crate) const LINKS_EXAMPLES: &str = "Example:
  urlcheck links --base https://example.com/ <links.txt";

pub(crate) const LINKS_NOTES: &str =
    "Prints `N ok URL`, `N bad PLACE RULE` or `N differs` for line N, and at the end
the counts. A line differs where a second parser, the crate `url`, makes another
URL of it.

Exit statuses:
  0  each line is ok
  1  a line isn't ok
  2  the arguments or the base are refused, or the second parser reads the base
     as another URL
  3  out of memory, the list is too long, or the input or the output failed

Example:
  urlcheck links --base https://example.com/ <links.txt";

pub(crate) const MEND_EXAMPLES: &str = "Examples:
  urlcheck mend 'https://example.com/a b'
  urlcheck mend --quiet <links.txt | diff links.txt -
  urlcheck mend --in-place links.txt";

pub(crate) const MEND_NOTES: &str =
    "Prints `mended KIND` and the mended text, `valid`, or `none` and `refused PLACE
RULE`. Without TEXT each line of standard input is printed: mended where lint
offers a mended text, and else as it was. With --in-place the lines of files are
mended, to texts of kind changed only with --only changed or --all-mended, and a
file is replaced by a whole new one, or not at all.

Exit statuses:
  0  the text is valid, or a mended text is, or so is each line
  1  no edit makes the text valid, or a line stays refused
  2  the arguments or the base are refused, or a file can't be read or written
  3  out of memory, or the input or the output failed

Examples:
  urlcheck mend 'https://example.com/a b'
  urlcheck mend --quiet <links.txt | diff links.txt -
  urlcheck mend --in-place links.txt";

pub(crate) const VECTORS_EXAMPLES: &str = "Example:
  urlcheck vectors tests/vectors/standard.json";

pub(crate) const VECTORS_NOTES: &str =
    "Prints `fail N` for each case that fails, and at the end how many pass.

Exit statuses:
  0  each case passes
  1  a case fails
  2  the arguments or the file are refused
  3  out of memory, the file can't be read, or the output failed

Example:
  urlcheck vectors tests/vectors/standard.json";

pub(crate) const EXPLAIN_EXAMPLES: &str = "Examples:
  urlcheck explain host-missing
  urlcheck explain --url host-missing percent";

pub(crate) const EXPLAIN_NOTES: &str =
    "Prints what each RULE asks and why, a text that it refuses with a valid one, and
its section of the URL Standard. A rule's number names it too.

Exit statuses:
  0  each RULE is explained
  2  the arguments are refused, or no rule has the name
  3  out of memory, or the output failed

Examples:
  urlcheck explain host-missing
  urlcheck explain --url host-missing percent";

/// The help of options: a first line for the short form, and for the long form also their values.
pub(crate) const PROFILE: &str = "What to accept [default: standard]
[possible values: standard, wide, parser]";

pub(crate) const PROFILE_VALUES: &str =
    "What to accept, of the text and of the base [default: standard]
Possible values:
- standard: what the URL Standard calls a valid URL string
- wide:     also _ and - anywhere in a host, and a path with //
- parser:   all that the Standard's parser reads without an error";

pub(crate) const FORMAT: &str = "How to report [default: gnu]
[possible values: gnu, caret, json, github, sarif,
checkstyle, junit, gitlab, rdjson]";

pub(crate) const FORMAT_VALUES: &str = "How to report [default: gnu]
Possible values:
- gnu:        a line as compilers write it
- caret:      the line with ^ at the wrong place, and what to write
- json:       an object a line
- github:     workflow commands of GitHub
- sarif:      SARIF 2.1.0, for code scanning
- checkstyle: XML of Checkstyle
- junit:      XML of JUnit
- gitlab:     GitLab's Code Quality
- rdjson:     reviewdog";

pub(crate) const COLUMNS: &str = "What columns count [default: code-points]
[possible values: code-points, bytes, utf16, screen]";

pub(crate) const COLUMNS_VALUES: &str =
    "What columns count, from 1 [default: code-points; rdjson: bytes]
Possible values:
- code-points: code points
- bytes:       bytes of UTF-8
- utf16:       code units of UTF-16, as editors do
- screen:      columns of a screen";

pub(crate) const COLOR: &str = "When gnu and caret have colours [default: auto]
[possible values: auto, always, never]";

pub(crate) const COLOR_VALUES: &str = "When gnu and caret have colours [default: auto]
Possible values:
- auto:   at a terminal, unless NO_COLOR or FORCE_COLOR says otherwise
- always: also in a pipe or a file
- never:  not at all";

pub(crate) const ONLY: &str = "Mend only lines whose mended text is of this kind
[possible values: same, escaped, changed]";

pub(crate) const ONLY_VALUES: &str = "Mend only lines whose mended text is of this kind
Possible values:
- same:    a second parser reads both texts as the same URL
- escaped: code points are percent-encoded, and nothing else
- changed: neither; see that the text is what was meant";
