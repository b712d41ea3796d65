// Reads lines of an amount and its weights from standard input, and prints what each sharing rule gives for each.
#![tactic(auto)]

ghost use Rattle.comparison.specs.Report.{report_text};

use answering::{Answer, answer_all};
use comparison::report_on;
use std::alloc::{AllocError, Global};
use std::io;

const REFUSALS: &str =
    "refusals: 14 over 16 weights; 15 amount or sum of weights above 4000000000; 16 an amount above 0 and no weight above 0; \
    18 no such line (an amount and its weights, without leading zeros, at most 4294967295, one blank between two)";

// The comparison of the two sharing rules.
struct Comparison;

impl Answer for Comparison {
    ghost text = { λ _ input. report_text input };

    fn answer(&self, heap: Global, input: &[u8]) -> Result<String, AllocError> {
        report_on(heap, input)
    }
}

fn main(rt: HostRuntime) -> anyhow::Result<()> {
    let report = answer_all(
        rt.alloc(),
        &Comparison,
        &mut rt.stdin(),
        &mut io::writer(&rt),
    )?;
    // The test of the text and the line of help are this program's own.
    if report.as_str().contains(" refusal ") {
        // The report is written whether or not this can be read.
        let _ = rt.eprintln(REFUSALS);
    }
    Ok(())
}

#[cfg(test)]
mod tests {
    use comparison::report_on;
    use std::test::Fail;

    // Input, and the report on it.
    const REPORTS: [(&[u8], &str); 13] = [
        (b"", "lines 0\n"),
        (b"\n", "line 1 refusal 18\nlines 1\n"),
        (b"0", "line 1 amount 0\nlines 1\n"),
        (b"5\n", "line 1 refusal 16\nlines 1\n"),
        (b"5 0\n", "line 1 refusal 16\nlines 1\n"),
        (
            b"1 1\n",
            "line 1 amount 1\nplace 0 weight 1 running-total 1 left-over 1 same\nlines 1\n",
        ),
        (b"1 1\r\n", "line 1 refusal 18\nlines 1\n"),
        (b"1  1\n", "line 1 refusal 18\nlines 1\n"),
        (
            b"007 1\n\xff\xfe",
            "line 1 refusal 18\nline 2 refusal 18\nlines 2\n",
        ),
        (
            b"4294967296 1\n4294967295 1\n4000000001 0",
            "line 1 refusal 18\nline 2 refusal 15\nline 3 refusal 15\nlines 3\n",
        ),
        (b"1 4000000000 1\n", "line 1 refusal 15\nlines 1\n"),
        (
            b"1 1 1 1 1 1 1 1 1 1 1 1 1 1 1 1 1 1\n",
            "line 1 refusal 14\nlines 1\n",
        ),
        (
            b"4000000001 0 0 0 0 0 0 0 0 0 0 0 0 0 0 0 0 0\n",
            "line 1 refusal 14\nlines 1\n",
        ),
    ];

    #[test]
    fn every_input_has_its_report(rt: HostRuntime) -> Result<(), Fail> {
        for (input, report) in REPORTS {
            assert!(rt; report_on(rt.alloc(), input)?.as_str() == report);
        }
        Ok(())
    }
}
