//! The checker of valid URL strings, and the parts of those that it takes (URL Standard, section 4.3).
#![tactic(auto)]

mod all_faults;
mod authority;
mod bases;
mod built;
mod checked;
mod checker;
mod cut;
mod ends;
mod form;
pub mod laws;
mod links;
mod marks;
mod parser_paths;
mod parser_stops;
mod parts;
mod parts_host;
mod places;
mod scan;
mod setting;
mod start_rules;
mod unit_faults;
mod validity;

pub use all_faults::{faults, faults_of_kind};
pub use bases::{BaseKind, BaseScheme};
pub use checker::{Verdict, check, check_alone, check_of_kind};
pub use form::Form;
pub use parts::{Parts, Segments};
pub use parts_host::{AsciiText, HostRef};
pub use validity::{is_valid, is_valid_of_kind, wider_profile};
