//! Writes what the commands say of standard input, which is one text: the driver of bench/growth.sh. Its arguments are
//! a mode and a base, if any. `faults` writes what `urlcheck check --all` writes, `check` what `urlcheck check` writes,
//! `mend` what `urlcheck mend` writes, and `read` reads the text and does no more.
#![tactic(auto)]

use std::io::{self, Error, ErrorKind, Read};
use std::{env, str};
use uv_cli::{CheckEnd, run_check, run_faults, run_mend};
use uv_io::ToWriter;
use uv_model::Profile;

fn main(rt: HostRuntime) -> io::Result<()> {
    let words: Vec<String> = env::args(&rt)?.collect(rt.alloc())?;
    let mut bytes = Vec::new(rt.alloc());
    rt.reader().read_to_end(&mut bytes)?;
    let Ok(text) = str::from_utf8(&bytes) else {
        return Err(Error::from(ErrorKind::InvalidData));
    };
    let base = words.get(2).map(|word| word.as_str());
    let mode = match words.get(1) {
        Some(word) => word.as_str(),
        None => "read",
    };
    let mut out = ToWriter::new(io::writer(&rt));
    let end = match mode {
        "faults" => run_faults(rt.alloc(), text, base, Profile::Standard, &mut out),
        "check" => run_check(rt.alloc(), text, base, Profile::Standard, &mut out),
        "mend" => run_mend(rt.alloc(), text, base, Profile::Standard, &mut out),
        _ => Ok(CheckEnd::Valid),
    };
    match end {
        Ok(CheckEnd::Valid | CheckEnd::Refused) => Ok(()),
        Ok(CheckEnd::BaseRefused(_)) | Err(_) => Err(Error::from(ErrorKind::Other)),
    }
}
