// Reads the numbers of a billing period from standard input, and prints its days with their hours.
#![tactic(auto)]

ghost use Rattle.day_list.specs.Listing.{list_text};

use answering::{Answer, answer_all};
use day_list::list_of;
use std::alloc::{AllocError, Global};
use std::io;

const REFUSALS: &str =
    "refusals: 7 no such billing period (the first day must exist and lie in 2020 to 2099, days 1 to 31, calendar 2 or 3 stages, \
    no bit of the map past the days); 18 no such line (year month day days calendar map, without leading zeros, at most 4294967295, \
    one blank between two)";

// The list of days.
struct DayList;

impl Answer for DayList {
    ghost text = { λ _ input. list_text input };

    fn answer(&self, heap: Global, input: &[u8]) -> Result<String, AllocError> {
        list_of(heap, input)
    }
}

fn main(rt: HostRuntime) -> anyhow::Result<()> {
    let list = answer_all(rt.alloc(), &DayList, &mut rt.stdin(), &mut io::writer(&rt))?;
    // The test of the text and the line of help are this program's own.
    if list.as_str().starts_with("refusal ") {
        // The list is written whether or not this can be read.
        let _ = rt.eprintln(REFUSALS);
    }
    Ok(())
}

#[cfg(test)]
mod tests {
    use day_list::list_of;
    use std::test::Fail;

    // Input, and the list for it.
    const LISTS: [(&[u8], &str); 14] = [
        (b"", "refusal 18\n"),
        (b"2024 6 3 1 3\n", "refusal 18\n"),
        (b"2024 6 3 1 3 0 0\n", "refusal 18\n"),
        (b"2024 6 03 1 3 0\n", "refusal 18\n"),
        (b"2024 6 3 1 3 0\r\n", "refusal 18\n"),
        (b"2024 6 3 1 3 0\n\n", "refusal 18\n"),
        (b"2024 6 3 1 3 4294967296\n", "refusal 18\n"),
        (b"2023 2 29 1 3 0\n", "refusal 7\n"),
        (b"2024 6 3 32 3 0\n", "refusal 7\n"),
        (b"2024 6 3 1 4 0\n", "refusal 7\n"),
        (b"2024 6 3 1 3 2", "refusal 7\n"),
        (
            b"2024 12 7 1 3 0",
            "0 2024 12 7 Saturday ------SSSSS---SSSSSSSSSS 0 0 60 36\n\
            days 1 quarters 96\n",
        ),
        (
            b"2024 12 2 1 2 0\n",
            "0 2024 12 2 Monday ------PPPPP---PPPPPPPPPP 60 0 0 36\n\
            days 1 quarters 96\n",
        ),
        (
            b"2024 6 6 3 2 2\n",
            "0 2024 6 6 Thursday ---------PPPPPPPPPPPPPPP 60 0 0 36\n\
            1 2024 6 7 Friday ------------------------ 0 0 0 96\n\
            2 2024 6 8 Saturday ---------SSSSSSSSSSSSSSS 0 0 60 36\n\
            days 3 quarters 288\n",
        ),
    ];

    #[test]
    fn every_input_has_its_list(rt: HostRuntime) -> Result<(), Fail> {
        for (input, list) in LISTS {
            assert!(rt; list_of(rt.alloc(), input)?.as_str() == list);
        }
        Ok(())
    }
}
