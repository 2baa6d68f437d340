// Runs the checked examples of document 01, and some of CR 1, CR 2, CR 3 and CR 5, through the operations and prints each with the
// paper's value, or one worked out by hand, beside it.
// Those with a star are proved too, of the definitions; here they are seen once in a running program.
#![tactic(auto)]

mod adding;
mod closing;
mod days;
mod handed;
mod large;
mod opening;
mod plants;
mod text;

use text::Due;

// A book of no bytes.
fn empty_book(rt: &impl Print) {
    let book = [0u8; 1];
    let mut result = [0; 64];
    let refusal = refusals::number_told(book::settling::settle(&book[0..0], &mut result));
    text::line(
        rt,
        "empty book",
        format_args!("refusal {refusal}"),
        Due::Paper("31"),
    );
}

fn main(rt: HostRuntime) {
    opening::examples(&rt);
    adding::examples(&rt);
    days::examples(&rt);
    large::examples(&rt);
    plants::examples(&rt);
    closing::examples(&rt);
    empty_book(&rt);
}
