//! Checks the lines of standard input, as often as is asked: the driver of the benches. Its words are a mode, a number
//! of rounds, a profile's name and a base; with none of them it checks once, alone, under the standard profile. The
//! base is resolved once.
//!
//! `read` cuts the input into lines and does no more. In each round `check` checks each line, `alone` does so without a
//! base by `check_alone`, `valid` asks for no more than whether it is valid, `resolve` makes the URL that it denotes,
//! serialized, and `record` its record and the record's text; all six say how many lines there are and how many were
//! valid. `verdicts` writes `1` or `0` for each line, `texts` its serialized URL, and `records` the text of its record,
//! or nothing if it has none.
#![tactic(auto)]

use std::alloc::{AllocError, Global};
use std::io::{self, Error, ErrorKind, Read};
use std::{env, str};
use uv_grammar::{Verdict, check, check_alone, is_valid};
use uv_model::{Profile, Record};
use uv_resolve::{ResolveFault, resolve, resolve_base, resolve_serialized};

// What a line is checked against.
#[derive(Clone, Copy)]
struct Setting<'s> {
    alloc: Global,
    base: Option<&'s Record>,
    profile: Profile,
}

// How the text of a URL is made: written from the parts, or from the record.
#[derive(Clone, Copy)]
enum Written {
    Serialized,
    Record,
}

fn main(rt: HostRuntime) -> io::Result<()> {
    let words: Vec<String> = env::args(&rt)?.collect(rt.alloc())?;
    let mut bytes = Vec::new(rt.alloc());
    rt.reader().read_to_end(&mut bytes)?;
    let texts = texts_in(rt.alloc(), &bytes)?;
    let Some(profile) = Profile::of_name(word_at(&words, 3, "standard")) else {
        return Err(Error::from(ErrorKind::InvalidInput));
    };
    let base = words.get(4).map(|word| word.as_str());
    let Ok(base) = resolve_base(rt.alloc(), base, profile) else {
        return Err(Error::from(ErrorKind::InvalidInput));
    };
    let setting = Setting {
        alloc: rt.alloc(),
        base: base.as_ref(),
        profile,
    };
    let rounds = word_at(&words, 2, "1").parse::<u32>().unwrap_or(1);
    let said = match word_at(&words, 1, "check") {
        "verdicts" => verdicts_on(&texts, setting)?,
        "texts" => texts_of(&texts, setting, Written::Serialized)?,
        "records" => texts_of(&texts, setting, Written::Record)?,
        mode => {
            let lines = texts.len();
            let valid = count_in_rounds(mode, rounds, &texts, setting)?;
            format!(in rt.alloc(); "{lines} lines, {valid} valid\n")?
        }
    };
    let said = said.as_str();
    print!(rt; "{said}")
}

// An argument, or what stands for it if it isn't given.
fn word_at<'w>(words: &'w [String], at: usize, otherwise: &'w str) -> &'w str {
    match words.get(at) {
        Some(word) => word.as_str(),
        None => otherwise,
    }
}

// The lines that are text and not empty.
fn texts_in<'b>(alloc: Global, bytes: &'b [u8]) -> Result<Vec<&'b str>, AllocError> {
    let mut texts = Vec::new(alloc);
    for line in bytes.split(|b| *b == b'\n') {
        if let Ok(text) = str::from_utf8(line) {
            if !text.is_empty() {
                texts.push(text)?;
            }
        }
    }
    Ok(texts)
}

// How many of the texts are valid, checked this many times; none if the mode doesn't check.
fn count_in_rounds(
    mode: &str,
    rounds: u32,
    texts: &[&str],
    setting: Setting<'_>,
) -> Result<usize, AllocError> {
    let mut valid = 0;
    for _ in 0..rounds {
        valid = match mode {
            "check" => count_checked(texts, setting)?,
            "alone" => count_alone(texts, setting)?,
            "valid" => count_valid(texts, setting)?,
            "resolve" => count_resolved(texts, setting, Written::Serialized)?,
            "record" => count_resolved(texts, setting, Written::Record)?,
            _ => 0,
        };
    }
    Ok(valid)
}

// How many of the texts are valid, by their verdicts.
fn count_checked(texts: &[&str], setting: Setting<'_>) -> Result<usize, AllocError> {
    let mut valid = 0usize;
    for text in texts {
        if let Verdict::Yes(_) = check(setting.alloc, text, setting.base, setting.profile)? {
            valid = valid.saturating_add(1);
        }
    }
    Ok(valid)
}

// How many of the texts are valid without a base, by `check_alone`, which nothing else here calls.
fn count_alone(texts: &[&str], setting: Setting<'_>) -> Result<usize, AllocError> {
    let mut valid = 0usize;
    for text in texts {
        if let Verdict::Yes(_) = check_alone(setting.alloc, text, setting.profile)? {
            valid = valid.saturating_add(1);
        }
    }
    Ok(valid)
}

// How many of the texts are valid, by the verdict without parts.
fn count_valid(texts: &[&str], setting: Setting<'_>) -> Result<usize, AllocError> {
    let mut valid = 0usize;
    for text in texts {
        if is_valid(setting.alloc, text, setting.base, setting.profile)? {
            valid = valid.saturating_add(1);
        }
    }
    Ok(valid)
}

// How many of the texts are valid, found by making the text of the URL of each.
fn count_resolved(
    texts: &[&str],
    setting: Setting<'_>,
    written: Written,
) -> Result<usize, AllocError> {
    let mut valid = 0usize;
    for text in texts {
        if url_text(text, setting, written)?.is_some() {
            valid = valid.saturating_add(1);
        }
    }
    Ok(valid)
}

// The text of a text's URL, or none if the text is refused.
fn url_text(
    text: &str,
    setting: Setting<'_>,
    written: Written,
) -> Result<Option<String>, AllocError> {
    let answer = match written {
        Written::Serialized => {
            resolve_serialized(setting.alloc, text, setting.base, setting.profile)
        }
        Written::Record => record_text(text, setting),
    };
    match answer {
        Ok(text) => Ok(Some(text)),
        Err(ResolveFault::Refused(_)) => Ok(None),
        Err(ResolveFault::Memory(error)) => Err(error),
    }
}

// The text of a text's record.
fn record_text(text: &str, setting: Setting<'_>) -> Result<String, ResolveFault> {
    let record = resolve(setting.alloc, text, setting.base, setting.profile)?;
    Ok(record.text(setting.alloc)?)
}

// A `1` for each valid text and a `0` for every other one, and a line feed.
fn verdicts_on(texts: &[&str], setting: Setting<'_>) -> Result<String, AllocError> {
    let mut verdicts = String::new(setting.alloc);
    for text in texts {
        match check(setting.alloc, text, setting.base, setting.profile)? {
            Verdict::Yes(_) => verdicts.push('1')?,
            Verdict::No(_) => verdicts.push('0')?,
        }
    }
    verdicts.push('\n')?;
    Ok(verdicts)
}

// A line for each text, with the text of its URL if it has one.
fn texts_of(texts: &[&str], setting: Setting<'_>, written: Written) -> Result<String, AllocError> {
    let mut lines = String::new(setting.alloc);
    for text in texts {
        if let Some(text) = url_text(text, setting, written)? {
            lines.push_str(text.as_str())?;
        }
        lines.push('\n')?;
    }
    Ok(lines)
}
