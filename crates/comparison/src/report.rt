// The report, from the first byte in to the last byte out.
ghost use Rattle.std.specs.Prelude.{◌≡◌, [], ◌+◌, ◌^◌, ◌<◌, ◌++◌, IfOk, string_bytes, OnOk};
ghost use Rattle.lines.specs.Numbers.{numbers_in};
ghost use Rattle.comparison.specs.Lines.{lines_of, CutIntoLines};
ghost use Rattle.comparison.specs.Report.{MadeAs, answer_of, line_text, report_from, report_text};

use crate::division::Division;
use crate::error::LineError;
use crate::input_lines::InputLines;
use lines::numbers;
use refusals::Refusal;
use std::alloc::{AllocError, Global};

// The division that a line asks for: the amount first, then the weights.
fn division_in(heap: Global, line: &[u8]) -> Result<Division, LineError>
    ensures { MadeAs (λ division. (division.amount, division.places.items)) result (answer_of (numbers_in line.now)) }
{
    let found = numbers(heap, line)?.ok_or(Refusal::NoSuchLine)?;
    let [amount, weights @ ..] = found.as_slice() else {
        return Err(LineError::Refused(Refusal::NoSuchLine));
    };
    Division::of(heap, *amount, weights)
}

// A report that is being written, and how many lines it has answered.
#[derive(Drop)]
struct Report {
    text: String,
    lines: usize,
}

impl Report {
    fn new(heap: Global) -> Report
        ensures text { string_bytes result.text ≡ [] }
        ensures lines { result.lines ≡ 0 }
    {
        Report {
            text: String::new(heap),
            lines: 0,
        }
    }

    // Answers the next line.
    fn answer(&mut self, line: &[u8]) -> Result<(), AllocError>
        requires { self.old.lines + 1 < 2 ^ 64 }
        ensures text { OnOk result (string_bytes self.new.text ≡ string_bytes self.old.text ++ line_text (self.old.lines + 1) line.now) }
        ensures lines { OnOk result (self.new.lines ≡ self.old.lines + 1) }
    {
        let heap = *self.text.allocator();
        self.lines += 1;
        let number = self.lines;
        match division_in(heap, line) {
            Ok(division) => write!(self.text, "line {number} {division}"),
            Err(LineError::Refused(refusal)) => write!(self.text, "line {number} {refusal}\n"),
            Err(LineError::OutOfMemory(error)) => Err(error),
        }
    }

    // The whole text, with the number of lines at its end.
    fn end(self) -> Result<String, AllocError>
        ensures { IfOk result (λ text. string_bytes text ≡ string_bytes self.text ++ report_from self.lines []) }
    {
        let Report { mut text, lines } = self;
        write!(text, "lines {lines}\n")?;
        Ok(text)
    }
}

/// What each rule gives for each line of `input`, place by place and where they differ, or the refusal by number.
pub fn report_on(heap: Global, input: &[u8]) -> Result<String, AllocError>
    ensures text { IfOk result (λ text. string_bytes text ≡ report_text input.now) }
    ensures every_line { OnOk result (CutIntoLines input.now (lines_of input.now)) }
{
    let mut report = Report::new(heap);
    for line in InputLines::from(input) {
        report.answer(line)?;
    }
    report.end()
}
