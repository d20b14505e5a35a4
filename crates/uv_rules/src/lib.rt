//! What each rule requires, with an example; what can be wrong with a line; and the rules as reports list them.
#![tactic(auto)]

mod explanation;
mod line_violation;
mod located_fault;
mod rule_list;

pub use explanation::{Explanation, explain};
pub use line_violation::{LineViolation, rule_index};
pub use located_fault::LocatedFault;
pub use rule_list::shown_rules;
