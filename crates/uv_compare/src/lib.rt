//! What a second parser, the crate `url`, makes of a text.
#![tactic(auto)]

mod against_records;
mod answer;
mod fault;
mod plain_links;

pub use against_records::{reading, reads_same};
pub use answer::{read_as, reads_as, serial};
pub use fault::RoomFault;
