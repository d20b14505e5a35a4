//! How a run over a vector file ends.
ghost use Rattle.std.specs.Prelude.{◌≡◌};
ghost use Rattle.uv_vectors.specs.Ends.{vector_end};

use crate::case_fault::CaseFault;
use crate::json_fault::JsonFault;

/// How a run over a vector file ends. If more than one end applies, it is the first of `TooLarge`, `NotJson`,
/// `NotArray` and `Malformed`, and with these nothing is written.
#[derive(Clone, Copy, PartialEq, Eq)]
pub enum VectorEnd {
    /// Every case passes, and the report was written.
    AllPass,
    /// A case fails, and the report was written.
    SomeFail,
    /// The bytes aren't JSON text.
    NotJson,
    /// The JSON value isn't an array.
    NotArray,
    /// There are more than `MOST_BYTES` bytes.
    TooLarge,
    /// The value with this number, from 1, isn't a case, and it is the first such value.
    Malformed(usize),
}

/// How a run over a vector file ends, also with why the bytes aren't JSON text, or why a value isn't a case.
#[derive(Debug, Drop, PartialEq, Eq)]
pub enum CasesEnd {
    /// Every case passes, and the report was written.
    AllPass,
    /// A case fails, and the report was written.
    SomeFail,
    /// The bytes aren't JSON text, for this reason.
    NotJson(JsonFault),
    /// The JSON value isn't an array.
    NotArray,
    /// There are more than `MOST_BYTES` bytes.
    TooLarge,
    /// The value with this number, from 1, isn't a case for this reason, and it is the first such value.
    Malformed(usize, CaseFault),
}

impl CasesEnd {
    /// The end without its reason.
    pub fn without_reason(&self) -> VectorEnd
        ensures { result ≡ vector_end self.now }
    {
        match self {
            CasesEnd::AllPass => VectorEnd::AllPass,
            CasesEnd::SomeFail => VectorEnd::SomeFail,
            CasesEnd::NotJson(_) => VectorEnd::NotJson,
            CasesEnd::NotArray => VectorEnd::NotArray,
            CasesEnd::TooLarge => VectorEnd::TooLarge,
            CasesEnd::Malformed(number, _) => VectorEnd::Malformed(*number),
        }
    }
}
