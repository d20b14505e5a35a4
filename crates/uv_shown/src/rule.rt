//! A rule as reports list it.

/// What a report says of a rule. A caller of reports gives the rules that they list.
#[derive(Clone, Copy)]
pub struct ShownRule<'a> {
    /// Its name.
    pub name: &'a str,
    /// What is wrong where it is violated, as a sentence without its full stop.
    pub sentence: &'a str,
    /// What it requires, in a sentence or two.
    pub help: &'a str,
    /// The address of a page on it, or nothing.
    pub uri: &'a str,
}
