//! The layout of the structs that C gets: their sizes, which include/urlcheck.h asserts too. The fields fill each size,
//! so none of them can be at another place than in C.

use crate::bases::Base;
use crate::batches::Batch;
use crate::checks::Answer;
use crate::columns::Counted;
use crate::finding::Finding;
use crate::lines::Line;
use crate::mended::Mended;
use crate::records::PlacedRecord;
use crate::reports::diagnostics::ReportedNumbers;
use crate::reports::fault_lists::{Fault, FaultCount};
use crate::spans::{Span, Spans};
use crate::written::Written;

const _: () = prove!(size_of::<Finding>() == 24);

const _: () = prove!(size_of::<Base>() == 40);

const _: () = prove!(size_of::<Span>() == 24);

const _: () = prove!(size_of::<Spans>() == 144);

const _: () = prove!(size_of::<Answer>() == 168);

const _: () = prove!(size_of::<PlacedRecord>() == 184);

const _: () = prove!(size_of::<Mended>() == 40);

const _: () = prove!(size_of::<Fault>() == 24);

const _: () = prove!(size_of::<FaultCount>() == 32);

const _: () = prove!(size_of::<Batch>() == 32);

const _: () = prove!(size_of::<Written>() == 32);

const _: () = prove!(size_of::<Counted>() == 32);

const _: () = prove!(size_of::<ReportedNumbers>() == 96);

const _: () = prove!(size_of::<Line>() == 56);
