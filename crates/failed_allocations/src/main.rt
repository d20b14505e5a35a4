//! Makes one call of the library, which standard input names, and prints its answer: the driver of
//! bench/failed_allocations.py, which has each of the call's allocations refused in turn. The first line says how many
//! allocations to make before the call, the second names the call, the third the profile, the fourth has the base,
//! empty when there is none, and the rest is the text, the list or the vector file, which is checked under the standard
//! profile. Nothing else allocates but the call and, if there is a base, what resolves it. The status is 3 if the call
//! is out of memory.
#![tactic(auto)]

use std::alloc::{AllocError, Global};
use std::io::{self, Read};
use std::process::ExitCode;
use std::str;
use uv_cli::{CliFault, run_check, run_faults};
use uv_grammar::{Verdict, check, faults};
use uv_host::{DomainAnswer, domain};
use uv_io::{FromReader, ToWriter};
use uv_lines::StopFault;
use uv_links::{LinkFault, LinkLimits, run_links};
use uv_model::{Host, Profile, Record, Refusal, UrlPath};
use uv_resolve::{ResolveFault, resolve};
use uv_vectors::{VectorFault, run_cases};

// What standard input asks for.
#[derive(Clone, Copy)]
struct Asked<'b> {
    before: usize,
    call: &'b str,
    profile: Profile,
    base: Option<&'b str>,
    text: &'b str,
}

// How a call ends: with its answer, which is printed, or because memory ran out.
#[derive(Clone, Copy)]
enum End {
    Answered,
    Memory,
    NotAsked,
}

fn main(rt: HostRuntime) -> ExitCode {
    let mut bytes = [0; 4096];
    let count = rt.reader().read(&mut bytes).unwrap_or(0);
    let end = match asked_in(bytes.get(..count).unwrap_or(&[])) {
        Some(asked) => match allocate(rt.alloc(), asked.before) {
            Ok(()) => ended(&rt, &asked),
            Err(AllocError) => End::NotAsked,
        },
        None => End::NotAsked,
    };
    match end {
        End::Answered => ExitCode::from(0),
        End::Memory => ExitCode::from(3),
        End::NotAsked => ExitCode::from(2),
    }
}

// Reads what standard input asks for, line by line.
fn asked_in(bytes: &[u8]) -> Option<Asked<'_>> {
    let text = str::from_utf8(bytes).ok()?;
    let (before, rest) = text.split_once('\n')?;
    let (call, rest) = rest.split_once('\n')?;
    let (profile, rest) = rest.split_once('\n')?;
    let (base, text) = rest.split_once('\n')?;
    let base = if base.is_empty() { None } else { Some(base) };
    Some(Asked {
        before: before.parse().ok()?,
        call,
        profile: profile_of(profile)?,
        base,
        text,
    })
}

fn profile_of(name: &str) -> Option<Profile> {
    match name {
        "standard" => Some(Profile::Standard),
        "wide" => Some(Profile::Wide),
        "parser" => Some(Profile::Parser),
        _ => None,
    }
}

// Makes this many allocations, and frees them.
fn allocate(alloc: Global, count: usize) -> Result<(), AllocError> {
    for _ in 0..count {
        let _room: Vec<u8> = Vec::with_capacity(alloc, 1)?;
    }
    Ok(())
}

// Makes the call that is asked for, with the base's record if the call takes one.
fn ended<R: Print + AllocGlobal>(rt: &R, asked: &Asked<'_>) -> End {
    match asked.call {
        "domain" => domain_ended(rt, asked),
        "run_check" | "run_faults" => check_ended(rt, asked),
        "run_cases" => vectors_ended(rt, asked.text),
        _ => {
            let Some(base) = asked.base else {
                return record_ended(rt, asked, None);
            };
            match resolve(rt.alloc(), base, None, asked.profile) {
                Ok(base) => record_ended(rt, asked, Some(&base)),
                Err(ResolveFault::Memory(_)) => End::Memory,
                Err(ResolveFault::Refused(_)) => End::NotAsked,
            }
        }
    }
}

// Makes one of the calls that take the base's record.
fn record_ended<R: Print + AllocGlobal>(rt: &R, asked: &Asked<'_>, base: Option<&Record>) -> End {
    match asked.call {
        "check" => verdict_ended(rt, asked, base),
        "faults" => faults_ended(rt, asked, base),
        "resolve" => resolve_ended(rt, asked, base),
        "run_links" => links_ended(rt, asked, base),
        _ => End::NotAsked,
    }
}

fn domain_ended<R: Print + AllocGlobal>(rt: &R, asked: &Asked<'_>) -> End {
    match domain(rt.alloc(), asked.text, asked.profile) {
        Ok(DomainAnswer::Ascii(form)) => printed(println!(rt; "{form}")),
        Ok(DomainAnswer::Number) => printed(println!(rt; "a number")),
        Ok(DomainAnswer::Not) => printed(println!(rt; "no domain")),
        Err(AllocError) => End::Memory,
    }
}

fn verdict_ended<R: Print + AllocGlobal>(rt: &R, asked: &Asked<'_>, base: Option<&Record>) -> End {
    match check(rt.alloc(), asked.text, base, asked.profile) {
        Ok(Verdict::Yes(parts)) => {
            let path = parts.path_text();
            printed(println!(rt; "valid, with the path {path}"))
        }
        Ok(Verdict::No(refusal)) => printed(print_refusal(rt, refusal)),
        Err(AllocError) => End::Memory,
    }
}

fn faults_ended<R: Print + AllocGlobal>(rt: &R, asked: &Asked<'_>, base: Option<&Record>) -> End {
    match faults(rt.alloc(), asked.text, base, asked.profile) {
        Ok(found) if found.is_empty() => printed(println!(rt; "no fault")),
        Ok(found) => printed(print_faults(rt, found.as_slice())),
        Err(AllocError) => End::Memory,
    }
}

fn print_faults<R: Print>(rt: &R, found: &[Refusal]) -> io::Result<()> {
    for fault in found {
        print_refusal(rt, *fault)?;
    }
    Ok(())
}

fn resolve_ended<R: Print + AllocGlobal>(rt: &R, asked: &Asked<'_>, base: Option<&Record>) -> End {
    match resolve(rt.alloc(), asked.text, base, asked.profile) {
        Ok(record) => printed(print_record(rt, &record)),
        Err(ResolveFault::Refused(refusal)) => printed(print_refusal(rt, refusal)),
        Err(ResolveFault::Memory(_)) => End::Memory,
    }
}

fn print_refusal<R: Print>(rt: &R, refusal: Refusal) -> io::Result<()> {
    let place = refusal.place;
    let name = refusal.rule.name();
    println!(rt; "refused {place} {name}")
}

// Prints the record as a check does, and makes no allocation.
fn print_record<R: Print>(rt: &R, record: &Record) -> io::Result<()> {
    let scheme = record.scheme();
    println!(rt; "scheme {scheme}")?;
    print_host(rt, record.host())?;
    if let Some(port) = record.port() {
        println!(rt; "port {port}")?;
    }
    print_path(rt, record.path())?;
    if let Some(query) = record.query() {
        println!(rt; "query {query}")?;
    }
    if let Some(fragment) = record.fragment() {
        println!(rt; "fragment {fragment}")?;
    }
    Ok(())
}

fn print_host<R: Print>(rt: &R, host: Option<&Host>) -> io::Result<()> {
    match host {
        None => Ok(()),
        Some(Host::Domain(form)) => {
            let form = form.as_str();
            println!(rt; "host domain {form}")
        }
        Some(Host::Empty) => println!(rt; "host empty"),
        Some(host) => println!(rt; "host {host:?}"),
    }
}

fn print_path<R: Print>(rt: &R, path: &UrlPath) -> io::Result<()> {
    match path {
        UrlPath::Opaque(text) => {
            let text = text.as_str();
            println!(rt; "opaque {text}")
        }
        UrlPath::Segments(list) => {
            for segment in list.iter() {
                println!(rt; "segment {segment}")?;
            }
            Ok(())
        }
    }
}

fn links_ended<R: Print + AllocGlobal>(rt: &R, asked: &Asked<'_>, base: Option<&Record>) -> End {
    let mut page = [0; 1024];
    let mut out = ToWriter::new(page.as_mut_slice());
    let mut reader = FromReader::new(asked.text.as_bytes());
    let answer = run_links(
        rt.alloc(),
        &mut reader,
        &mut out,
        base,
        LinkLimits::standard(),
        asked.profile,
    );
    let room = out.into_writer().len();
    let end = printed(print_page(rt, &page, room));
    match answer {
        Ok(_) => end,
        Err(LinkFault::Stop(StopFault::Memory)) => End::Memory,
        Err(_) => End::NotAsked,
    }
}

fn check_ended<R: Print + AllocGlobal>(rt: &R, asked: &Asked<'_>) -> End {
    let mut page = [0; 1024];
    let mut out = ToWriter::new(page.as_mut_slice());
    let (alloc, text, base) = (rt.alloc(), asked.text, asked.base);
    let answer = if asked.call == "run_check" {
        run_check(alloc, text, base, asked.profile, &mut out)
    } else {
        run_faults(alloc, text, base, asked.profile, &mut out)
    };
    let room = out.into_writer().len();
    let end = printed(print_page(rt, &page, room));
    match answer {
        Ok(_) => end,
        Err(CliFault::Memory) => End::Memory,
        Err(CliFault::Write) => End::NotAsked,
    }
}

fn vectors_ended<R: Print + AllocGlobal>(rt: &R, file: &str) -> End {
    let mut page = [0; 1024];
    let mut out = ToWriter::new(page.as_mut_slice());
    let answer = run_cases(rt.alloc(), file.as_bytes(), &mut out);
    let room = out.into_writer().len();
    let end = printed(print_page(rt, &page, room));
    match answer {
        Ok(_) => end,
        Err(VectorFault::Memory) => End::Memory,
        Err(VectorFault::Write) => End::NotAsked,
    }
}

// Prints the prefix of a page that leaves this much room.
fn print_page<R: Print>(rt: &R, page: &[u8], room: usize) -> io::Result<()> {
    let prefix = page.get(..page.len().saturating_sub(room)).unwrap_or(&[]);
    let text = str::from_utf8(prefix).unwrap_or("not UTF-8\n");
    print!(rt; "{text}")
}

// The end of a call whose answer was printed. If it failed, the program prints nothing about the call.
fn printed(outcome: io::Result<()>) -> End {
    match outcome {
        Ok(()) => End::Answered,
        Err(_) => End::NotAsked,
    }
}
