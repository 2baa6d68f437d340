// Openings: A, and the highest count and slot.
use crate::handed;
use crate::text::{self, Due};
use heads::HEAD_LENGTH;
use numbers::DAYS_BACK;

// A line for the opening of a head with no marks.
fn line(rt: &impl Print, asked: &str, head: [u8; HEAD_LENGTH], due: &str) {
    let refusal = refusals::number_told(ledger::open(&head, &[0; DAYS_BACK]));
    text::line(
        rt,
        format_args!("opening {asked}"),
        format_args!("refusal {refusal}"),
        Due::Paper(due),
    );
}

pub fn examples(rt: &impl Print) {
    line(
        rt,
        "2024-01-31, a Wednesday",
        handed::head(1, 31, 26, 1),
        "0",
    );
    line(rt, "2024-02-03, a Saturday", handed::head(2, 3, 26, 1), "3");
    line(rt, "count 10000", handed::head(8, 7, 26, 10000), "0");
    line(rt, "count 10001", handed::head(8, 7, 26, 10001), "7");
    line(rt, "s 34", handed::head(8, 7, 34, 1), "0");
    line(rt, "s 35", handed::head(8, 7, 35, 1), "4");
}
