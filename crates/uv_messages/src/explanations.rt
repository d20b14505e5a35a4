//! Explanations: for some rules or each, what they require and why, an example, and their sections of the URL Standard;
//! or the addresses of these sections.
ghost use Rattle.std.specs.Prelude.{◌≡◌, IfOk, IfSome, find, is_some, string_bytes};
ghost use Rattle.std.specs.Str.{str_to_ascii_lowercase};
ghost use Rattle.uv_arguments.specs.declared.jobs.Told.TheVariants as told;
ghost use Rattle.uv_messages.specs.Explanations.{Answers, IsExplanation, IsHead, Tells, TellsAll, are_explained};
ghost use Rattle.uv_messages.specs.Explanations.{between, each_rule, example_text, has_number, rule_topic};
ghost use Rattle.uv_messages.specs.Explanations.{source_text, topic_named, topics_named};

use crate::reasons::reason;
use crate::report::{push_line, push_present};
use crate::wrapping::wrapped;
use itoa::Buffer;
use std::alloc::{AllocError, Global};
use uv_arguments::Told;
use uv_model::{Refusal, Rule};
use uv_rules::{Explanation, LineViolation, explain};

// What a name has an explanation of.
#[derive(Clone, Copy)]
enum Topic {
    // A rule with its example, or something else that may be wrong with a line.
    Line(LineViolation),
    // The rule of documents that a link isn't empty.
    Empty,
    // The rule of documents that a link isn't plain text.
    NoLink,
}

// The rules that a link of a document can violate besides the rules of URL strings.
const EMPTY: &str = "empty: this link is empty, which its format forbids here

A link of an image, a script, a frame, a form's address or a link element isn't
empty.
";

// The explanation of `no-link`.
const NO_LINK: &str =
    "no-link: Markdown reads this as text, because its address has a space: write %20

A destination of Markdown has no space, unless < and > enclose it: it is
percent-encoded as %20.
";

/// What is written about the rules with these names, or about every rule: what they require and why, an example of
/// each, and where the Standard says so; or the addresses of their sections of the URL Standard, if they have one. It is
/// `None` if one of the names has no explanation.
pub fn explained(alloc: Global, names: &[String], told: Told) -> Result<Option<String>, AllocError>
    ensures { IfOk result (Answers names.now told) }
{
    let Some(topics) = topics_named(alloc, names)? else {
        return Ok(None);
    };
    let topics = if names.is_empty() {
        rules(alloc)?
    } else {
        topics
    };
    Ok(Some(told_of(alloc, topics.as_slice(), told)?))
}

// The explanations of these topics, in their order.
fn told_of(alloc: Global, topics: &[Topic], told: Told) -> Result<String, AllocError>
    ensures { IfOk result (λ text. TellsAll told topics.now (string_bytes text)) }
{
    let mut texts = Vec::new(alloc);
    for topic in topics {
        texts.push(text_of(alloc, *topic, told)?)?;
    }
    texts.as_slice().join(alloc, between(told))
}

// The text between the explanations of two topics.
fn between(told: Told) -> &'static str
    ensures { result.now ≡ between told }
{
    match told {
        Told::Explanation => "\n\n",
        Told::Address => "",
    }
}

// What has these names, in their order, if each of them has an explanation.
fn topics_named(alloc: Global, names: &[String]) -> Result<Option<Vec<Topic>>, AllocError>
    ensures found { IfOk result (λ topics. is_some topics ≡ are_explained names.now) }
    ensures topics { IfOk result (λ topics. IfSome topics (λ all. all.items ≡ topics_named names.now)) }
{
    let mut topics = Vec::new(alloc);
    for name in names {
        match topic_of(alloc, name.as_str())? {
            Some(topic) => topics.push(topic)?,
            None => return Ok(None),
        }
    }
    Ok(Some(topics))
}

// What has a name, in any ASCII case.
fn topic_of(alloc: Global, name: &str) -> Result<Option<Topic>, AllocError>
    ensures { IfOk result (λ topic. topic ≡ topic_named (str_to_ascii_lowercase name.now)) }
{
    let name = name.to_ascii_lowercase(alloc)?;
    Ok(topic_named(name.as_str()))
}

// What has a name in lower case.
fn topic_named(name: &str) -> Option<Topic>
    ensures { result ≡ topic_named name.now }
{
    if let Some(rule) = Rule::of_name(name) {
        return Some(example_of(rule));
    }
    if let Some(violation) = LineViolation::of_name(name) {
        return Some(Topic::Line(violation));
    }
    if name == "empty" {
        return Some(Topic::Empty);
    }
    if name == "no-link" {
        return Some(Topic::NoLink);
    }
    match numbered(Rule::in_order().as_slice(), name) {
        Some(rule) => Some(example_of(rule)),
        None => None,
    }
}

// The rule with this number, in decimal digits.
fn numbered(rules: &[Rule], text: &str) -> Option<Rule>
    ensures { result ≡ find (λ rule. has_number rule text.now) rules.now }
{
    for rule in rules {
        if has_number(*rule, text) {
            return Some(*rule);
        }
    }
    None
}

// Whether a rule has this number.
fn has_number(rule: Rule, text: &str) -> bool
    ensures { result ≡ has_number rule text.now }
{
    Buffer::new().format(rule.number()) == text
}

/// Whether a name is explained, in any ASCII case.
pub(crate) fn is_explained(alloc: Global, name: &str) -> Result<bool, AllocError> {
    Ok(topic_of(alloc, name)?.is_some())
}

// Each rule.
fn rules(alloc: Global) -> Result<Vec<Topic>, AllocError>
    ensures { IfOk result (λ topics. topics.items ≡ each_rule) }
{
    let mut topics = Vec::new(alloc);
    for rule in &Rule::in_order() {
        topics.push(example_of(*rule))?;
    }
    Ok(topics)
}

// A rule with its example.
fn example_of(rule: Rule) -> Topic
    ensures { result ≡ rule_topic rule }
{
    let place = explain(rule).place;
    Topic::Line(LineViolation::Refused(Refusal { place, rule }))
}

// The explanation of a topic.
fn text_of(alloc: Global, topic: Topic, told: Told) -> Result<String, AllocError>
    ensures { IfOk result (Tells told topic) }
{
    match told {
        Told::Explanation => explanation(alloc, topic),
        Told::Address => address_line(alloc, topic),
    }
}

// The address of a rule's section of the URL Standard in a line, or nothing for what isn't such a rule.
fn address_line(alloc: Global, topic: Topic) -> Result<String, AllocError>
    ensures { IfOk result (Tells told.Address topic) }
{
    let mut line = String::new(alloc);
    if let Topic::Line(LineViolation::Refused(refusal)) = topic {
        push_line(&mut line, "", explain(refusal.rule).address)?;
    }
    Ok(line)
}

// The explanation of a topic: for a rule also its section, and its example.
fn explanation(alloc: Global, topic: Topic) -> Result<String, AllocError>
    ensures { IfOk result (Tells told.Explanation topic) }
{
    match topic {
        Topic::Line(LineViolation::Refused(refusal)) => rule_explained(alloc, refusal),
        Topic::Line(violation) => head(alloc, violation),
        Topic::Empty => String::from_str(alloc, EMPTY),
        Topic::NoLink => String::from_str(alloc, NO_LINK),
    }
}

// What a violation is called, what is wrong, and what is required.
fn head(alloc: Global, violation: LineViolation) -> Result<String, AllocError>
    ensures { IfOk result (λ text. IsHead violation (string_bytes text)) }
{
    let mut text = violation.name().to_string(alloc)?;
    push_line(&mut text, ": ", violation.sentence())?;
    push_line(&mut text, "\n", wrapped(alloc, violation.help())?.as_str())?;
    Ok(text)
}

// The same of a rule, with the reason for it, its example, and last its section.
fn rule_explained(alloc: Global, refusal: Refusal) -> Result<String, AllocError>
    ensures { IfOk result (λ text. IsExplanation refusal (string_bytes text)) }
{
    let mut text = head(alloc, LineViolation::Refused(refusal))?;
    let explanation = explain(refusal.rule);
    push_line(&mut text, "\n", reason(refusal.rule))?;
    text.push_str(example(alloc, &explanation, refusal.place)?.as_str())?;
    push_present(
        &mut text,
        "\nThe same URL, written validly: ",
        mended_otherwise(refusal.rule),
    )?;
    push_present(
        &mut text,
        "\nAccepted under --profile ",
        accepted_under(refusal.rule),
    )?;
    text.push_str(source(alloc, &explanation)?.as_str())?;
    Ok(text)
}

// A text that is refused at a place, what its author may have meant, and the base of both.
#[tactic(auto, unfolding(crate::specs::Explanations::place_text))]
fn example(alloc: Global, explanation: &Explanation, place: usize) -> Result<String, AllocError>
    ensures { IfOk result (λ text. string_bytes text ≡ example_text explanation.now place) }
{
    let mut text = format!(in alloc; "\nWrong, at place {place}:\n")?;
    push_line(&mut text, "\n    ", explanation.wrong)?;
    push_line(&mut text, "\nWrite instead:\n\n    ", explanation.mended)?;
    push_present(&mut text, "\nThe base of both: ", explanation.base)?;
    Ok(text)
}

// A rule's section of the URL Standard, and its address.
fn source(alloc: Global, explanation: &Explanation) -> Result<String, AllocError>
    ensures { IfOk result (λ text. string_bytes text ≡ source_text explanation.now) }
{
    let mut text = String::new(alloc);
    push_line(&mut text, "\nURL Standard, ", explanation.section)?;
    push_line(&mut text, "", explanation.address)?;
    Ok(text)
}

// What `mend` writes in place of the text that a rule refuses, if it isn't the text that was meant.
fn mended_otherwise(rule: Rule) -> Option<&'static str> {
    match rule {
        Rule::FirstSegmentEmpty => Some("https://example.com/.//a"),
        Rule::DriveAfterHost => Some("file://h/./C:/x"),
        _ => None,
    }
}

// The first profile that accepts the text that a rule refuses, if one does.
fn accepted_under(rule: Rule) -> Option<&'static str> {
    match rule {
        Rule::FirstSegmentEmpty => Some("wide"),
        Rule::HostDomain | Rule::DriveAfterHost => Some("parser"),
        _ => None,
    }
}
