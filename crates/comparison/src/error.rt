// Why a line has no division.
ghost use Rattle.std.specs.Prelude.{◌≡◌};
ghost use Rattle.comparison.specs.declared.error.LineError.TheVariants.{Refused, OutOfMemory};

use refusals::Refusal;
use std::alloc::AllocError;

/// A line is refused, or memory ran out before its division was whole.
#[derive(Clone, Copy, Debug)]
pub(crate) enum LineError {
    Refused(Refusal),
    OutOfMemory(AllocError),
}

impl From<Refusal> for LineError {
    ghost from_gives = { λ refusal error. error ≡ Refused refusal };

    fn from(refusal: Refusal) -> LineError {
        LineError::Refused(refusal)
    }
}

impl From<AllocError> for LineError {
    ghost from_gives = { λ cause error. error ≡ OutOfMemory cause };

    fn from(cause: AllocError) -> LineError {
        LineError::OutOfMemory(cause)
    }
}
