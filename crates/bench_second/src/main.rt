//! The second parser by itself: reads the lines of standard input, has the crate `url` parse each, and says how many
//! lines there are and how many of them are URLs by that parser. With a word each is read against this URL. A line ends
//! with LF; the buffer of lines is kept.
#![tactic(auto)]

use std::alloc::Global;
use std::io::{self, BufRead, BufReader, Error, ErrorKind};
use std::{env, str};
use url::{ParseResult, Url};

// How many bytes are read at a time.
const PIECE_BYTES: usize = 65_536;

fn main(rt: HostRuntime) -> io::Result<()> {
    let words: Vec<String> = env::args(&rt)?.collect(rt.alloc())?;
    let Ok(base) = base_of(rt.alloc(), words.get(1).map(|word| word.as_str())) else {
        return Err(Error::from(ErrorKind::InvalidInput));
    };
    let mut reader = BufReader::with_capacity(rt.alloc(), PIECE_BYTES, rt.reader())?;
    let mut line = Vec::new(rt.alloc());
    let mut lines = 0u64;
    let mut urls = 0u64;
    for _turn in 0..u64::MAX {
        line.clear();
        if reader.read_until(b'\n', &mut line)? == 0 {
            break;
        }
        lines = lines.saturating_add(1);
        if is_url(rt.alloc(), base.as_ref(), &line) {
            urls = urls.saturating_add(1);
        }
    }
    println!(rt; "{lines} lines, {urls} parsed")
}

// The base, if one is given.
fn base_of(alloc: Global, word: Option<&str>) -> ParseResult<Option<Url>> {
    match word {
        Some(word) => Ok(Some(Url::parse(alloc, word)?)),
        None => Ok(None),
    }
}

// Whether the second parser takes a line, without the LF at its end.
fn is_url(alloc: Global, base: Option<&Url>, line: &[u8]) -> bool {
    let line = match line.split_last() {
        Some((b'\n', prefix)) => prefix,
        _ => line,
    };
    match str::from_utf8(line) {
        Ok(text) => parse(alloc, base, text).is_ok(),
        Err(_) => false,
    }
}

fn parse(alloc: Global, base: Option<&Url>, text: &str) -> ParseResult<Url> {
    match base {
        Some(base) => base.join(text),
        None => Url::parse(alloc, text),
    }
}
