//! Options of other tools, by their names, and what to write here instead.

// The message about an option on how links are fetched.
const NO_FETCH: &str = "no command fetches a link: only how it is written is checked";

// The options of other tools that mean the same, and what to write here in place of each. `RULE` stands for the rule
// that is their value.
const HABITS: [(&str, &str); 28] = [
    (
        "--fix --fix-only --unsafe-fixes --write -w",
        "urlcheck mend --in-place FILE mends the links of a list",
    ),
    (
        "--diff --dry-run --fix-dry-run",
        "urlcheck mend -q <FILE | diff FILE - shows what mend changes",
    ),
    (
        "--ignore --extend-ignore --disable",
        "lint reports every rule: grep -v '\\[RULE\\]$' leaves one out; urlcheck-documents has --ignore",
    ),
    (
        "--select --extend-select --rule",
        "lint reports every rule: grep '\\[RULE\\]$' leaves one; urlcheck-documents has --select",
    ),
    (
        "--exclude --include --skip --ignore-pattern --ignore-url --ignore-urls",
        "lint reads the FILEs that it is given, and each of their lines: leave some out before",
    ),
    (
        "--recursive -r -R",
        "lint reads lists; urlcheck-documents FOLDER checks the documents of a folder",
    ),
    (
        "--output-format --reporter --formatter",
        "lint --format FORMAT names the format",
    ),
    ("--json", "lint --format json writes an object a line"),
    ("--sarif", "lint --format sarif writes SARIF"),
    (
        "--colour --no-color --no-colour --colors --colours",
        "lint --color WHEN takes auto, always and never",
    ),
    (
        "--verbose -v",
        "lint --format caret shows each line, and urlcheck --version the version",
    ),
    (
        "--debug --explain --show-source",
        "lint --format caret shows each line; explain RULE explains a rule",
    ),
    ("--silent -s", "lint --quiet leaves out the counts"),
    (
        "--output -o --output-file",
        ">FILE writes what is printed to a file",
    ),
    (
        "--statistics --stats --count --summary",
        "lint -q FILE | grep -o '\\[[a-z0-9-]*\\]$' | sort | uniq -c counts by rule",
    ),
    (
        "--exit-zero --no-fail",
        "|| [ $? = 1 ] after the command goes on at a refused link",
    ),
    (
        "--max-warnings --severity --minAlertLevel",
        "each refused link is an error",
    ),
    (
        "--jobs -j --threads --parallel --watch --cache --no-cache",
        "lint reads a million links in less than a second: once, on one processor",
    ),
    (
        "--config -c --isolated --no-config --norc --rcfile",
        "only urlcheck-documents reads a configuration",
    ),
    (
        "--timeout --offline --online --retries --max-retries --max-redirects --recursion-level",
        NO_FETCH,
    ),
    (
        "--user-agent --method --insecure --accept --check-extern --disable-external",
        NO_FETCH,
    ),
    (
        "--check",
        "leave it out: check, lint and links change no file",
    ),
    (
        "--list --type --gfm --git --no-empty --baseline --write-baseline",
        "urlcheck-documents, which reads documents, has one",
    ),
    (
        "--strict",
        "the standard profile is the strictest, and the one without --profile",
    ),
    (
        "--list-rules --show-rules --rules",
        "urlcheck explain explains every rule",
    ),
    (
        "--base-url",
        "--base URL is what relative links are resolved against",
    ),
    ("--stdin", "lint - reads standard input"),
    (
        "--stdin-filename --stdin-display-name",
        "lint --stdin-name NAME - names standard input",
    ),
];

/// What to write in place of an option that other tools take, and no command of this program does, if that is known.
pub(crate) fn habit(name: &str) -> Option<&'static str> {
    let (_, said) = HABITS
        .iter()
        .find(|(names, _)| names.split(' ').any(|known| known == name))?;
    Some(said)
}
