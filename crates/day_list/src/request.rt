// The six numbers that a billing period is asked for by.
ghost use Rattle.std.specs.Prelude.{◌≡◌, IfOk};
ghost use Rattle.std.specs.Option.{option_map as changed};
ghost use Rattle.std.specs.Result.{result_map_both};
ghost use Rattle.day_list.specs.Requests.{line_of, request_of, request_in, terms_asked};

use lines::{cut, numbers};
use refusals::Refusal;
use std::alloc::{AllocError, Global};
use tariff::{BillingPeriod, Date};

// A billing period that is asked for. It may be one that cannot be.
#[derive(Clone, Copy)]
pub(crate) struct Request {
    first: Date,
    days: u32,
    // A number, as the line has it: whether there is such a calendar is for the billing period to say.
    stages: u32,
    off_peak_map: u32,
}

impl Request {
    // The billing period, or why it cannot be.
    pub(crate) fn period(self) -> Result<BillingPeriod, Refusal>
        ensures { result_map_both (λ period. period.terms) (λ refusal. refusal) result ≡ terms_asked self }
    {
        BillingPeriod::new(self.first, self.days, self.stages, self.off_peak_map)
    }
}

// The one line of the input, where nothing stands after its newline. A report's input has many, so that it has a function of its own.
fn line_of(input: &[u8]) -> Option<&[u8]>
    ensures { changed (λ x. x.now) result ≡ line_of input.now }
{
    let (line, rest) = cut(input, b'\n');
    rest.unwrap_or(&[]).is_empty().then_some(line)
}

// The request that six numbers make.
fn request_of(found: &[u32]) -> Option<Request>
    ensures { result ≡ request_of found.now }
{
    let [year, month, day, days, stages, off_peak_map] = found else {
        return None;
    };
    Some(Request {
        first: Date {
            year: *year,
            month: *month,
            day: *day,
        },
        days: *days,
        stages: *stages,
        off_peak_map: *off_peak_map,
    })
}

// The request that the input makes, where it is one line of six numbers. Want of memory is another thing, which `?` serves.
pub(crate) fn request_in(heap: Global, input: &[u8]) -> Result<Option<Request>, AllocError>
    ensures { IfOk result (λ found. found ≡ request_in input.now) }
{
    let Some(line) = line_of(input) else {
        return Ok(None);
    };
    let Some(found) = numbers(heap, line)? else {
        return Ok(None);
    };
    Ok(request_of(found.as_slice()))
}
