// Addings of a mixed-firing plant. CR 1 gives a formula and no figures: the values are worked out by it, by hand.
use crate::text::Due;
use crate::{adding, handed};
use points::{Kind, MIXED_FIRING_LENGTH};

// On thirty marks of 1: a plant needs no days.
fn line(rt: &impl Print, asked: &str, share: u16, outside: u32, inside: u32, due: Due<'_>) {
    let mut value = [0u8; MIXED_FIRING_LENGTH];
    handed::put_mixed_firing(&mut value, share, outside, inside);
    adding::line(
        rt,
        asked,
        handed::opened(1),
        Kind::MixedFiring.tag(),
        &value,
        due,
    );
}

// 100,002 × 667 ÷ 1,000 = 66,701.334; of 66,700.667 and 0.667, rounded apart, 66,700 would be left.
fn results(rt: &impl Print) {
    line(
        rt,
        "adding share 333, readings 100001 and 1",
        333,
        100001,
        1,
        Due::ByHand("66701 in each"),
    );
    line(
        rt,
        "adding share 0, readings 1000000000 twice",
        0,
        1000000000,
        1000000000,
        Due::ByHand("2000000000 in each"),
    );
    line(
        rt,
        "adding share 1000, readings 100001 and 1",
        1000,
        100001,
        1,
        Due::ByHand("0 in each"),
    );
}

fn refusals(rt: &impl Print) {
    line(
        rt,
        "adding share 1001, readings 100001 and 1000000001",
        1001,
        100001,
        1000000001,
        Due::Paper("50"),
    );
    line(
        rt,
        "adding share 1000, readings 100001 and 1000000001",
        1000,
        100001,
        1000000001,
        Due::Paper("51"),
    );
}

pub fn examples(rt: &impl Print) {
    results(rt);
    refusals(rt);
}
