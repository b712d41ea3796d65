// The list, from the first byte in to the last byte out.
ghost use Rattle.std.specs.Prelude.{◌≡◌, IfOk, string_bytes};
ghost use Rattle.day_list.specs.Laws.{AllLettersTell};
ghost use Rattle.day_list.specs.Listing.{list_text};

use crate::days::DayList;
use crate::request::{Request, request_in};
use refusals::Refusal;
use std::alloc::{AllocError, Global};

// Holds what the letters of every list tell.
#[tactic(auto, using(crate::proofs::LettersTell::letters_tell))]
fn letters_tell()
    ensures { AllLettersTell }
{}

/// The days of the billing period that the line of `input` asks for, each with its hours, or the refusal by number.
pub fn list_of(heap: Global, input: &[u8]) -> Result<String, AllocError>
    ensures text { IfOk result (λ text. string_bytes text ≡ list_text input.now) }
    ensures letters { AllLettersTell }
{
    letters_tell();
    let request = request_in(heap, input)?.ok_or(Refusal::NoSuchLine);
    match request.and_then(Request::period) {
        Ok(period) => DayList(period).to_string(heap),
        Err(refusal) => format!(in heap; "{refusal}\n"),
    }
}
