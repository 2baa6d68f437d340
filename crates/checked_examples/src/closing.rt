// Closings of a list of one generator: L.
use crate::handed;
use crate::text::{self, Due};
use figures::Figures;
use ledger::told;
use numbers::WINDOW_SLOTS;
use points::{GENERATOR_LENGTH, Kind};

// The figures of a generator with this baseline, a first reading and the same reading in the other slots.
fn figures_of(baseline: u32, first: u32, others: u32) -> Figures {
    let mut value = [0; GENERATOR_LENGTH];
    handed::put_generator(&mut value, baseline, first, others);
    let mut places = [0; WINDOW_SLOTS];
    let state = handed::opened(0);
    let answer = ledger::add(state, Kind::Generator.tag(), &value, &mut places);
    let added = told::added_state(state, answer);
    told::closed_figures(ledger::close(added.state))
}

fn settled(rt: &impl Print, figures: Figures, due: &str) {
    let Figures { total, settled, .. } = figures;
    text::line(
        rt,
        format_args!("closing total {total}"),
        format_args!("settled {settled}"),
        Due::Paper(due),
    );
}

fn bid(rt: &impl Print, figures: Figures, due: &str) {
    let expected = figures.expected;
    let bid = if figures.bid { "bid yes" } else { "bid no" };
    text::line(
        rt,
        format_args!("closing expected {expected}"),
        bid,
        Due::Paper(due),
    );
}

// A baseline of 1 kW takes 500 Wh off each slot.
pub fn examples(rt: &impl Print) {
    settled(rt, figures_of(0, 2999, 0), "0");
    settled(rt, figures_of(1, 2999, 0), "-1");
    bid(rt, figures_of(0, 499999, 499999), "no");
    bid(rt, figures_of(0, 500000, 500000), "yes");
}
