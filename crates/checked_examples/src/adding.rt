// Addings of a high-voltage consumer: C, H to K and use 1,200.
use crate::handed;
use crate::text::{self, Due};
use ledger::State;
use numbers::WINDOW_SLOTS;
use points::{CONSUMER_LENGTH, Kind};

// A line for an adding: its refusal, or the six places where there is none.
pub fn line(rt: &impl Print, asked: &str, state: State, tag: u8, value: &[u8], due: Due<'_>) {
    let mut places = [0; WINDOW_SLOTS];
    match ledger::add(state, tag, value, &mut places) {
        Ok(_) => {
            let [first, second, third, fourth, fifth, sixth] = places;
            let results = format_args!("{first} {second} {third} {fourth} {fifth} {sixth}");
            text::line(rt, asked, results, due);
        }
        Err(refusal) => text::line(rt, asked, refusal, due),
    }
}

// One for a consumer on days that all have the mark.
fn consumer(rt: &impl Print, asked: &str, mark: u8, earlier: u32, used: u32, due: &str) {
    let mut value = [0; CONSUMER_LENGTH];
    handed::put_consumer(&mut value, earlier, used);
    line(
        rt,
        asked,
        handed::opened(mark),
        Kind::Consumer.tag(),
        &value,
        Due::Paper(due),
    );
}

pub fn examples(rt: &impl Print) {
    consumer(rt, "adding on thirty marks of 1", 1, 1200, 240, "18");
    consumer(rt, "adding use 240", 0, 1200, 240, "1000 in each");
    consumer(rt, "adding use 241", 0, 1200, 241, "998 in each");
    consumer(rt, "adding use 1200", 0, 1200, 1200, "0 in each");
    consumer(rt, "adding use 1201", 0, 1200, 1201, "-2 in each");
    consumer(
        rt,
        "adding use 240, earlier readings 0",
        0,
        0,
        240,
        "-250 in each",
    );
}
