//! The URL parser of the URL Standard (sections 3.5 and 4.4) as definitions, and the laws about its runs. Nothing of it
//! runs in the product.
#![tactic(auto)]

pub mod laws;
pub mod round_trip;
pub mod silence_laws;
pub mod step_counts;
