//! The definitions of valid URL strings and of the URL parser, and the records.
#![tactic(auto)]

mod address_text;
mod code_points;
mod domain;
mod extent;
mod held;
mod host;
pub mod laws;
mod mend_kind;
mod opaque_host;
mod path;
mod path_text;
mod profile;
mod record;
mod rule;
mod scheme;
mod segments;
mod serializer;
mod text;
mod units;

pub use address_text::{hex_digit, longest_zero_run, push_ipv4, push_ipv6, push_port};
pub use code_points::{after_code_points, first_code_point, starts_with_two_hex};
pub use domain::{ends_in_number, is_domain_mark, is_forbidden_domain};
pub use extent::Extent;
pub use host::Host;
pub use mend_kind::MendKind;
pub use opaque_host::is_forbidden_host;
pub use path::UrlPath;
pub use path_text::{PathSegments, PathText, without_last_segment};
pub use profile::Profile;
pub use record::Record;
pub use rule::{Refusal, Rule};
pub use scheme::{Class, class_of, default_port, is_name};
pub use segments::{is_double_dot, is_drive_letter, is_normalized_drive_letter, is_single_dot};
pub use serializer::dot_prefix;
pub use text::Text;
pub use units::is_url_code_point;
