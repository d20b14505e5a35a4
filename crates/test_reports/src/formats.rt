//! Diagnostics that no run of the program reports, written out by hand: without a text, by a rule of the caller's own,
//! over two lines, with a line feed in the message; of a host that isn't a domain though nothing is wrong with it under
//! the profile; and the end of a document of SARIF after a run that was stopped.

use crate::diagnostics::refused;
use crate::reports::report;
use std::process::Abort;
use std::test::Fail;
use uv_model::{MendKind, Profile, Refusal, Rule};
use uv_report::{Completion, Diagnostic, Fix, Format, Region, end_of};
use uv_rules::LineViolation;
use uv_sentences::{Checked, KnownText, Wording, message};
use uv_shown::SeenText;

// If no text is carried, there is no line to show and no place below it.
#[test]
fn shows_no_line_without_a_text(rt: HostRuntime) -> Result<(), Fail> {
    let none = SeenText::new("");
    let found = Diagnostic {
        is_shown: false,
        ..refused("-", "not-utf8", "this line isn't UTF-8", 0, &none)
    };
    let text = report(rt.alloc(), Format::Caret, &found)?;
    assert!(rt; text.as_str() == "-:3:1: error: this line isn't UTF-8 [not-utf8]\n");
    Ok(())
}

// A rule that the library doesn't have has no number among the rules of a SARIF document.
#[test]
fn takes_a_rule_of_the_callers_own(rt: HostRuntime) -> Result<(), Fail> {
    let link = SeenText::new("page.html");
    let found = refused("f", "own", "no page is there", 0, &link);
    let sarif = report(rt.alloc(), Format::Sarif, &found)?;
    assert!(rt; sarif.contains("\"text\":\"page.html\"},\"ruleId\":\"own\"}\n"));
    let known = Diagnostic {
        index: Some(3),
        ..refused("f", "no-scheme", "there is no scheme", 0, &link)
    };
    let sarif = report(rt.alloc(), Format::Sarif, &known)?;
    assert!(rt; sarif.contains("\"ruleId\":\"no-scheme\",\"ruleIndex\":3}\n"));
    Ok(())
}

// Reviewdog names the page of a rule if there is one.
#[test]
fn names_a_page_where_there_is_one(rt: HostRuntime) -> Result<(), Fail> {
    let link = SeenText::new("page.html");
    let found = refused("f", "own", "no page is there", 0, &link);
    let bare = report(rt.alloc(), Format::Rdjson, &found)?;
    assert!(rt; bare.contains("{\"code\":{\"value\":\"own\"},\"location\":"));
    let paged = Diagnostic {
        uri: "https://h.example/own",
        ..found
    };
    let text = report(rt.alloc(), Format::Rdjson, &paged)?;
    assert!(rt; text.contains("{\"code\":{\"url\":\"https://h.example/own\",\"value\":\"own\"},"));
    Ok(())
}

// A diagnostic is one line, whatever the message is.
#[test]
fn stays_on_one_line(rt: HostRuntime) -> Result<(), Fail> {
    let link = SeenText::new("page.html");
    let found = refused("f", "own", "no page\nis there", 0, &link);
    let text = report(rt.alloc(), Format::Gnu, &found)?;
    assert!(rt; text.as_str() == "f:3:1: error: no page\u{FFFD}is there [own]\n");
    Ok(())
}

// A text that goes on in another line is replaced in both.
#[test]
fn replaces_a_text_over_two_lines(rt: HostRuntime) -> Result<(), Fail> {
    let link = SeenText::new("a b");
    let region = Region {
        line: 2,
        column: 5,
        end_line: 3,
        end_column: 2,
    };
    let fix = Fix {
        region: Some(region),
        text: "a%20b",
        kind: MendKind::Escaped,
        is_offered: true,
        is_named: false,
    };
    let found = Diagnostic {
        fix: Some(fix),
        ..refused("f", "code-point", "no space is allowed", 1, &link)
    };
    let sarif = report(rt.alloc(), Format::Sarif, &found)?;
    assert!(rt;
        sarif.contains(
            "\"deletedRegion\":{\"endColumn\":2,\"endLine\":3,\"startColumn\":5,\"startLine\":2}"
        )
    );
    let rdjson = report(rt.alloc(), Format::Rdjson, &found)?;
    assert!(rt;
        rdjson.contains(
            "[{\"range\":{\"end\":{\"column\":2,\"line\":3},\"start\":{\"column\":5,\"line\":2}},"
        )
    );
    Ok(())
}

// A text that can't be written anywhere in the file is shown, but isn't an edit of it.
#[test]
fn edits_no_file_without_a_region(rt: HostRuntime) -> Result<(), Fail> {
    let link = SeenText::new("a b");
    let fix = Fix {
        region: None,
        text: "a%20b",
        kind: MendKind::Escaped,
        is_offered: true,
        is_named: false,
    };
    let found = Diagnostic {
        fix: Some(fix),
        ..refused("f", "code-point", "no space is allowed", 1, &link)
    };
    let sarif = report(rt.alloc(), Format::Sarif, &found)?;
    assert!(rt; !sarif.contains("a%20b"));
    let json = report(rt.alloc(), Format::Json, &found)?;
    assert!(rt; json.contains("\"kind\":\"escaped\",\"line\":3,\"mended\":\"a%20b\""));
    Ok(())
}

#[test]
fn says_no_more_of_a_domain_with_nothing_wrong(rt: HostRuntime) -> Result<(), Fail> {
    let link = KnownText::new("http://-a--b-");
    let violation = LineViolation::Refused(Refusal {
        place: 7,
        rule: Rule::HostDomain,
    });
    let checked = Checked {
        profile: Profile::Wide,
        accepted_by: None,
        wording: Wording::Options,
    };
    let said = message(rt.alloc(), checked, &link, violation)?;
    assert!(rt; said.text.as_str() == "the host that begins here is not a valid domain");
    Ok(())
}

// The end of a document says that the run didn't succeed, and why.
#[test]
fn says_in_sarif_that_the_run_was_stopped(rt: HostRuntime) {
    let end = end_of(Format::Sarif, Completion::Stopped);
    assert!(rt; end.contains("\"executionSuccessful\":false"));
    assert!(rt; end.contains("\"text\":\"the run stopped, and standard error says why\""));
}
