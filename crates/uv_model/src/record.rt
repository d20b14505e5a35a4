//! Records: the URLs that valid texts denote, each well formed.
ghost use Rattle.std.specs.Prelude.{◌≡◌, IfOk, Option, Some, None, option_copied, option_map, string_bytes};
ghost use Rattle.std.specs.Cow.{cow_str_bytes};
ghost use Rattle.std.specs.Str.{IsAscii};
ghost use Rattle.uv_model.specs.declared.profile.Profile.TheVariants.{Parser};
ghost use Rattle.uv_model.specs.Records.Url.{Url, is_opaque};
ghost use Rattle.uv_model.specs.Records.WellFormed.{MayBeAscii, WellFormed};

use crate::host::Host;
use crate::path::UrlPath;
use crate::text::Text;
use std::alloc::{AllocError, Global};
use std::borrow::CowStr;
use std::marker::Model;

/// A URL's record (URL Standard, section 4.1) without credentials. It is well formed under the parser's profile, and so
/// can belong to a valid text of any profile.
#[derive(Debug, Drop)]
pub struct Record {
    scheme: CowStr<'static>,
    host: Option<Host>,
    port: Option<u16>,
    path: UrlPath,
    query: Option<Text>,
    fragment: Option<Text>,
}

impl Model for Record {
    ghost use Rattle.std.specs.Cow.{cow_str_bytes};
    ghost use Rattle.uv_model.specs.Records.Url.{Url};

    ghost Value = { Url };

    ghost use Rattle.uv_model.specs.declared.profile.Profile.TheVariants.{Parser};
    ghost use Rattle.uv_model.specs.Records.WellFormed.{WellFormed};

    ghost view = { λ r. record {
      scheme = cow_str_bytes r.scheme;
      host = r.host;
      port = r.port;
      path = r.path;
      query = r.query;
      fragment = r.fragment;
    } };

    ghost invariant = { λ r. WellFormed Parser (record {
      scheme = cow_str_bytes r.scheme;
      host = r.host;
      port = r.port;
      path = r.path;
      query = r.query;
      fragment = r.fragment;
    }) };
}

impl Record {
    /// The record of these parts, without a copy. They have to be well formed under the parser's profile.
    pub fn make(
        scheme: String,
        host: Option<Host>,
        port: Option<u16>,
        path: UrlPath,
        query: Option<String>,
        fragment: Option<String>,
    ) -> Record
        requires { WellFormed Parser (record {
          scheme = string_bytes scheme;
          host = host;
          port = port;
          path = path;
          query = option_map (λ s. string_bytes s) query;
          fragment = option_map (λ s. string_bytes s) fragment;
        }) }
        ensures { result ≡ record {
          scheme = string_bytes scheme;
          host = host;
          port = port;
          path = path;
          query = option_map (λ s. string_bytes s) query;
          fragment = option_map (λ s. string_bytes s) fragment;
        } }
    {
        let query = text_of(query);
        let fragment = text_of(fragment);
        Record::make_with(CowStr::Owned(scheme), host, port, path, query, fragment)
    }

    /// The record of these parts, without a copy. The scheme may be a name in the program's constants. The parts have
    /// to be well formed under the parser's profile.
    #[inline(always)]
    pub fn make_with(
        scheme: CowStr<'static>,
        host: Option<Host>,
        port: Option<u16>,
        path: UrlPath,
        query: Option<Text>,
        fragment: Option<Text>,
    ) -> Record
        requires { WellFormed Parser (record {
          scheme = cow_str_bytes scheme;
          host = host;
          port = port;
          path = path;
          query = query;
          fragment = fragment;
        }) }
        ensures { result ≡ record {
          scheme = cow_str_bytes scheme.entry;
          host = host;
          port = port;
          path = path;
          query = query;
          fragment = fragment;
        } }
    {
        Record {
            scheme,
            host,
            port,
            path,
            query,
            fragment,
        }
    }

    /// The scheme, in lower case.
    pub fn scheme(&self) -> &str
        ensures text { result.now ≡ self.now.scheme }
        ensures ascii { IsAscii self.now.scheme }
    {
        self.scheme.as_str()
    }

    /// The host, or `None` if the URL has none.
    pub fn host(&self) -> Option<&Host>
        ensures { option_copied result ≡ self.now.host }
    {
        self.host.as_ref()
    }

    /// The port, or `None` if the URL has none or its scheme's default.
    pub fn port(&self) -> Option<u16>
        ensures { result ≡ self.now.port }
    {
        self.port
    }

    /// The path.
    pub fn path(&self) -> &UrlPath
        ensures path { result.now ≡ self.now.path }
        ensures well_formed { WellFormed Parser self.now }
    {
        &self.path
    }

    /// The query without its `?`, or `None` if the URL has none.
    pub fn query(&self) -> Option<&str>
        ensures { option_copied result ≡ self.now.query }
    {
        as_text(&self.query)
    }

    /// The query as a `Text`, without its `?`, or `None` if the URL has none.
    pub fn query_text(&self) -> Option<&Text>
        ensures { option_copied result ≡ self.now.query }
    {
        self.query.as_ref()
    }

    /// The fragment without its `#`, or `None` if the URL has none.
    pub fn fragment(&self) -> Option<&str>
        ensures { option_copied result ≡ self.now.fragment }
    {
        as_text(&self.fragment)
    }

    /// The path is an opaque text.
    pub fn is_opaque(&self) -> bool
        ensures { result ≡ is_opaque self.now.path }
    {
        match &self.path {
            UrlPath::Opaque(_) => true,
            UrlPath::Segments(_) => false,
        }
    }

    /// An equal record. An error means that memory ran out.
    pub fn copy(&self, alloc: Global) -> Result<Record, AllocError>
        ensures { IfOk result (λ r. r ≡ self.now) }
    {
        let scheme = scheme_copy(alloc, &self.scheme)?;
        let host = host_copy(alloc, &self.host)?;
        let path = self.path.copy(alloc)?;
        let query = text_copy(alloc, &self.query)?;
        let fragment = text_copy(alloc, &self.fragment)?;
        Ok(Record {
            scheme,
            host,
            port: self.port,
            path,
            query,
            fragment,
        })
    }
}

// A scheme that is one of the program's constants isn't copied.
fn scheme_copy(alloc: Global, scheme: &CowStr<'static>) -> Result<CowStr<'static>, AllocError>
    ensures { IfOk result (λ copy. cow_str_bytes copy ≡ cow_str_bytes scheme.now) }
{
    match scheme {
        CowStr::Borrowed(name) => Ok(CowStr::Borrowed(name)),
        CowStr::Owned(text) => Ok(CowStr::Owned(String::from_str(alloc, text.as_str())?)),
    }
}

// A copy of a host that may be absent.
fn host_copy(alloc: Global, host: &Option<Host>) -> Result<Option<Host>, AllocError>
    ensures { IfOk result (λ copy. copy ≡ host.now) }
{
    match host {
        Some(host) => Ok(Some(host.copy(alloc)?)),
        None => Ok(None),
    }
}

// A copy of a text that may be absent.
fn text_copy(alloc: Global, text: &Option<Text>) -> Result<Option<Text>, AllocError>
    ensures { IfOk result (λ copy. copy ≡ text.now) }
{
    match text {
        Some(text) => Ok(Some(text.copy(alloc)?)),
        None => Ok(None),
    }
}

// The text of a string that is ASCII.
fn text_of(string: Option<String>) -> Option<Text>
    requires { MayBeAscii (option_map (λ s. string_bytes s) string) }
    ensures { result ≡ option_map (λ s. string_bytes s) string }
{
    match string {
        Some(string) => Some(Text::of(string)),
        None => None,
    }
}

// The text as a slice.
fn as_text(text: &Option<Text>) -> Option<&str>
    ensures { option_copied result ≡ text.now }
{
    match text {
        Some(text) => Some(text.as_str()),
        None => None,
    }
}
