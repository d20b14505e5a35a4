//! The texts of hosts: IPv4 and IPv6 addresses, opaque hosts and domains.
#![tactic(auto)]

mod addresses;
mod domains;
mod fitting_forms;
mod names;
mod numbers;
mod opaque_hosts;
mod parser_hosts;
mod plain_names;

pub use addresses::{bracketed_ipv6, ipv4, ipv6};
pub use domains::{DomainAnswer, PlainAnswer, domain, plain_answer};
pub use numbers::numbers_value;
pub use opaque_hosts::{opaque_fault, opaque_unit_fault};
pub use parser_hosts::{ParserHost, parser_host};
pub use plain_names::{is_plain_domain, name_prefix};
