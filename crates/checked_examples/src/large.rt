// The reading that is told to be too large, of a high-voltage consumer. CR 3 gives no figures: the index is the place at which the reading
// was put.
ghost use Rattle.std.specs.Prelude.{◌<◌};
ghost use Rattle.readings.specs.Readings.{reading_count};

use crate::handed;
use crate::text::{self, Due};
use numbers::WINDOW_SLOTS;
use points::{CONSUMER_LENGTH, Kind};

// The refusal and the index of an adding with two readings above the limit, or one where both places are the same.
fn with_large(rt: &impl Print, asked: &str, first: usize, second: usize, due: &str)
    requires { (first < reading_count) × (second < reading_count) }
{
    let mut value = [0; CONSUMER_LENGTH];
    handed::put_consumer(&mut value, 1200, 240);
    handed::put_large(&mut value, first);
    handed::put_large(&mut value, second);
    let mut places = [0; WINDOW_SLOTS];
    let state = handed::opened(0);
    let added = ledger::add(state, Kind::Consumer.tag(), &value, &mut places);
    let refusal = refusals::number_told(added);
    let index = refusals::index_told(added);
    let answer = format_args!("refusal {refusal} index {index}");
    text::line(
        rt,
        format_args!("adding with {asked}"),
        answer,
        Due::ByHand(due),
    );
}

pub fn examples(rt: &impl Print) {
    with_large(rt, "reading 47 above the limit", 47, 47, "51 with 47");
    with_large(rt, "reading 48", 48, 48, "52 with 48");
    with_large(rt, "reading 1487", 1487, 1487, "52 with 1487");
    with_large(rt, "readings 1487 and 47", 1487, 47, "51 with 47");
}
