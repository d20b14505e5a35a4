//! The lines of a list, read piece by piece, each reported on when it ends. The report on a line may be written in
//! parts.
#![tactic(auto)]

mod ending;
mod fault;
mod framed;
mod limits;
mod line;
mod line_parts;
mod passing;
mod pieces;
mod progress;
mod reporter;
mod run;
mod taker;
mod taking;
mod waiting;

pub use fault::{LineFault, ReportFault, StopFault};
pub use framed::{Frame, run_lines};
pub use limits::LineLimits;
pub use line::Line;
pub use line_parts::{line_end, line_text, without_mark};
pub use pieces::take_list;
pub use reporter::Reporter;
pub use taker::Taker;
pub use waiting::{end_part, write_out};
