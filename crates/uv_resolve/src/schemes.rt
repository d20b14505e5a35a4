//! Schemes by their names: the class of a scheme, and its name in lower case.
ghost use Rattle.std.specs.Prelude.{◌≡◌, ◌++◌, IfOk, IfSome, OnOk, chars, string_bytes};
ghost use Rattle.std.specs.Cow.{cow_str_bytes};
ghost use Rattle.std.specs.Str.{IsAscii};
ghost use Rattle.uv_model.specs.Scheme.{lowercase, scheme_class};
ghost use Rattle.uv_resolve.specs.Schemes.{IsKnownScheme};

use std::alloc::{AllocError, Global};
use std::borrow::CowStr;
use uv_model::{Class, class_of, is_name};

/// The class of a scheme. Those that most links have are compared first.
pub(crate) fn class_by(scheme: &str) -> Class
    ensures { result ≡ scheme_class (chars scheme.now) }
{
    match known_scheme(scheme) {
        Some(known) => known.class,
        None => class_of(scheme),
    }
}

// The name of a special scheme in lower case.
#[inline(always)]
fn lower_name(scheme: &str) -> Option<&'static str>
    ensures { IfSome result (λ name. name.now ≡ lowercase (chars scheme.now)) }
{
    match known_scheme(scheme) {
        Some(known) => Some(known.name),
        None => special_name(scheme),
    }
}

/// A scheme in lower case, which takes no memory where the scheme is special.
pub(crate) fn lowered(alloc: Global, scheme: &str) -> Result<CowStr<'static>, AllocError>
    requires { IsAscii (chars scheme.now) }
    ensures { IfOk result (λ text. cow_str_bytes text ≡ lowercase (chars scheme.now)) }
{
    match lower_name(scheme) {
        Some(name) => Ok(CowStr::Borrowed(name)),
        None => Ok(CowStr::Owned(scheme.to_ascii_lowercase(alloc)?)),
    }
}

/// Appends a scheme in lower case. The answer is its class.
#[inline(always)]
pub(crate) fn push_lowered(
    alloc: Global,
    out: &mut String,
    scheme: &str,
) -> Result<Class, AllocError>
    requires { IsAscii (chars scheme.now) }
    ensures text { OnOk result (string_bytes out.new ≡ string_bytes out.old ++ lowercase (chars scheme.now)) }
    ensures class { IfOk result (λ class. class ≡ scheme_class (chars scheme.now)) }
{
    match known_scheme(scheme) {
        Some(known) => {
            out.push_str(known.name)?;
            Ok(known.class)
        }
        None => {
            push_other(alloc, out, scheme)?;
            Ok(class_of(scheme))
        }
    }
}

// Appends a scheme that few links have, in lower case.
fn push_other(alloc: Global, out: &mut String, scheme: &str) -> Result<(), AllocError>
    requires { IsAscii (chars scheme.now) }
    ensures { OnOk result (string_bytes out.new ≡ string_bytes out.old ++ lowercase (chars scheme.now)) }
{
    match special_name(scheme) {
        Some(name) => out.push_str(name),
        None => out.push_str(scheme.to_ascii_lowercase(alloc)?.as_str()),
    }
}

/// A copy of a scheme, which takes no memory where the scheme is one that most links have.
pub(crate) fn copied(alloc: Global, scheme: &str) -> Result<CowStr<'static>, AllocError>
    requires { IsAscii scheme.now }
    ensures { IfOk result (λ text. cow_str_bytes text ≡ scheme.now) }
{
    match known_scheme(scheme) {
        Some(known) => Ok(CowStr::Borrowed(known.name)),
        None => Ok(CowStr::Owned(String::from_str(alloc, scheme)?)),
    }
}

// The name of a special scheme in lower case, whatever case it is written in.
fn special_name(scheme: &str) -> Option<&'static str>
    ensures { IfSome result (λ name. name.now ≡ lowercase (chars scheme.now)) }
{
    if is_name(scheme, "https") {
        return Some("https");
    }
    if is_name(scheme, "http") {
        return Some("http");
    }
    if is_name(scheme, "file") {
        return Some("file");
    }
    if is_name(scheme, "ftp") {
        return Some("ftp");
    }
    if is_name(scheme, "wss") {
        return Some("wss");
    }
    if is_name(scheme, "ws") {
        return Some("ws");
    }
    None
}

// A scheme that most links have: its class, and its name in lower case.
#[derive(Clone, Copy)]
struct KnownScheme {
    class: Class,
    name: &'static str,
}

// What is known of a scheme that most links have, where it is written in lower case.
fn known_scheme(scheme: &str) -> Option<KnownScheme>
    ensures { IfSome result (λ known. IsKnownScheme (chars scheme.now) known.class known.name.now) }
{
    if scheme == "https" {
        return Some(KnownScheme {
            class: Class::SpecialNotFile,
            name: "https",
        });
    }
    if scheme == "http" {
        return Some(KnownScheme {
            class: Class::SpecialNotFile,
            name: "http",
        });
    }
    if scheme == "file" {
        return Some(KnownScheme {
            class: Class::File,
            name: "file",
        });
    }
    None
}
