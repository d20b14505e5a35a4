//! The calls of the specification that no command makes: a line of the report on a list, and a run over vectors.

use std::test::Fail;
use uv_calls::{Outcome, line_text, run_vectors};
use uv_io::ToWriter;
use uv_model::{Refusal, Rule};
use uv_vectors::VectorEnd;

// A line's number, what the report says of it, and the line of the report.
type Row = (u64, Outcome<'static>, &'static str);

const ROWS: [Row; 5] = [
    (1, Outcome::Good("http://h/"), "1 ok http://h/\n"),
    (
        20,
        Outcome::Bad(Refusal {
            place: 8,
            rule: Rule::CodePoint,
        }),
        "20 bad 8 code-point\n",
    ),
    (300, Outcome::NotUtf8, "300 bad 0 not-utf8\n"),
    (4_000, Outcome::TooLong, "4000 bad 0 line-too-long\n"),
    (u64::MAX, Outcome::Differs, "18446744073709551615 differs\n"),
];

// The bytes of a vector file, how a run over them ends, and what it writes.
type Run = (&'static str, VectorEnd, &'static str);

const RUNS: [Run; 5] = [
    (
        r#"[{"input": "http://h", "text": "http://h/"}]"#,
        VectorEnd::AllPass,
        "vectors 1 pass 1 fail 0\n",
    ),
    (
        r#"[{"input": "http://h", "text": "http://i/"}]"#,
        VectorEnd::SomeFail,
        "fail 1\nvectors 1 pass 0 fail 1\n",
    ),
    ("[", VectorEnd::NotJson, ""),
    ("{}", VectorEnd::NotArray, ""),
    ("[{}]", VectorEnd::Malformed(1), ""),
];

#[test]
fn writes_a_line_of_a_report(rt: HostRuntime) -> Result<(), Fail> {
    for (number, outcome, line) in &ROWS {
        let text = line_text(rt.alloc(), *number, outcome)?;
        assert!(rt; text.as_str() == *line);
    }
    Ok(())
}

#[test]
fn runs_vectors(rt: HostRuntime) -> Result<(), Fail> {
    for (bytes, end, report) in &RUNS {
        let mut out = ToWriter::new(Vec::new(rt.alloc()));
        let ended = run_vectors(rt.alloc(), bytes.as_bytes(), &mut out)?;
        assert!(rt; ended == *end);
        assert!(rt; out.into_writer().as_slice() == report.as_bytes());
    }
    Ok(())
}
