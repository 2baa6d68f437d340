// Points: the tests of a point's value that need no state, and its number.
#![tactic(auto)]

ghost use Rattle.std.specs.Prelude.{◌≡◌, ◌≤◌, ◌-◌, length, get_or, IfOk};
ghost use Rattle.numbers.specs.Refusals.{first_told};
ghost use Rattle.numbers.specs.PointNumbers.{number_length};
ghost use Rattle.refusals.specs.Told.{number_told, number_of as refusal_number, index_of};
ghost use Rattle.points.specs.Points.{kind_of, size_of, number_of, readings_at, large_number, with_index};
ghost use Rattle.points.specs.Points.{tag_row, form_rows, class_row, unfit_row, large_row, value_rows};
ghost use Rattle.points.specs.Told.{tag_of, class_number, refusal_told};

use numbers::{NUMBER_LENGTH, SLOTS_OF_DAY};
use refusals::Refusal;

pub const CONSUMER_LENGTH: usize = 5975;

pub const GENERATOR_LENGTH: usize = 50;

pub const MIXED_FIRING_LENGTH: usize = 72;

// Where the parts of a value behind its number begin.
pub const CLASS_AT: usize = 22;

pub const CONSUMER_READINGS_AT: usize = 23;

pub const BASELINE_AT: usize = 22;

pub const GENERATOR_READINGS_AT: usize = 26;

pub const SHARE_AT: usize = 22;

pub const MIXED_FIRING_READINGS_AT: usize = 24;

// The kW that a generator's baseline may reach.
const MOST_BASELINE: u32 = 1000000;

// The tenths of a percent that a biomass share may reach.
const MOST_SHARE: u16 = 1000;

// The kinds of point, by their tags (specs/Points).
#[derive(Clone, Copy, Debug, PartialEq, Eq)]
pub enum Kind {
    Consumer = 3,
    Generator = 4,
    MixedFiring = 5,
}

impl TryFrom<u8> for Kind {
    type Error = Refusal;

    ghost try_from_gives = { λ tag kind. IfOk kind (λ kind. tag_of kind ≡ tag) × (number_told kind ≡ first_told (tag_row tag)) };

    fn try_from(tag: u8) -> Result<Kind, Refusal> {
        match tag {
            3 => Ok(Kind::Consumer),
            4 => Ok(Kind::Generator),
            5 => Ok(Kind::MixedFiring),
            _ => Err(Refusal::PointTag),
        }
    }
}

impl Kind {
    // Its tag, the other way than `try_from`.
    pub fn tag(self) -> u8
        ensures { result ≡ tag_of self }
    {
        self as u8
    }

    // The length of a point's value.
    pub fn value_length(self) -> usize
        ensures { result ≡ size_of (kind_of (tag_of self)) }
    {
        match self {
            Kind::Consumer => CONSUMER_LENGTH,
            Kind::Generator => GENERATOR_LENGTH,
            Kind::MixedFiring => MIXED_FIRING_LENGTH,
        }
    }

    // Where the readings begin in a value; they fill the rest of it.
    fn readings_at(self) -> usize
        ensures { result ≡ readings_at (kind_of (tag_of self)) }
    {
        match self {
            Kind::Consumer => CONSUMER_READINGS_AT,
            Kind::Generator => GENERATOR_READINGS_AT,
            Kind::MixedFiring => MIXED_FIRING_READINGS_AT,
        }
    }

    // The refusal of a reading above the limit: one of a consumer's days back, or any other.
    fn large(self, index: u32) -> Refusal
        ensures number { refusal_number result ≡ large_number (kind_of (tag_of self)) index }
        ensures index { index_of result ≡ index }
    {
        if self == Kind::Consumer && SLOTS_OF_DAY as u32 <= index {
            Refusal::ReadingOfDaysBack(index)
        } else {
            Refusal::ReadingOfTestDay(index)
        }
    }
}

// The length of the value that a tag asks for; 0 where it is no point's.
pub fn value_length(tag: u8) -> usize
    ensures { result ≡ size_of (kind_of tag) }
{
    Kind::try_from(tag).map_or(0, Kind::value_length)
}

// The voltage classes of consumers.
#[derive(Clone, Copy, Debug, PartialEq, Eq)]
pub enum Class {
    Low,
    High,
    ExtraHigh,
}

impl TryFrom<u8> for Class {
    type Error = Refusal;

    ghost try_from_gives = { λ number class. IfOk class (λ class. class_number class ≡ number) × (number_told class ≡ first_told (class_row number)) };

    fn try_from(number: u8) -> Result<Class, Refusal> {
        match number {
            1 => Ok(Class::Low),
            2 => Ok(Class::High),
            3 => Ok(Class::ExtraHigh),
            _ => Err(Refusal::ClassOrBaseline),
        }
    }
}

impl Class {
    // The loss of the class.
    pub fn loss(self, losses: [u16; 3]) -> u16
        ensures { result ≡ get_or losses (class_number self - 1) 0 }
    {
        match self {
            Class::Low => losses[0],
            Class::High => losses[1],
            Class::ExtraHigh => losses[2],
        }
    }
}

// The kind of a tag that asks for this length.
fn kind_of_length(tag: u8, length: usize) -> Result<Kind, Refusal>
    ensures told { number_told result ≡ first_told (form_rows tag length) }
    ensures given { IfOk result (λ kind. (tag_of kind ≡ tag) × (length ≡ size_of (kind_of (tag_of kind)))) }
{
    let kind = Kind::try_from(tag)?;
    if length != kind.value_length() {
        return Err(Refusal::PointLength);
    }
    Ok(kind)
}

// A tag of no point, or a length that is not that of the tag.
pub fn form_refusal(tag: u8, length: usize) -> Result<(), Refusal>
    ensures { number_told result ≡ first_told (form_rows tag length) }
{
    kind_of_length(tag, length).map(|_| ())
}

// What is not allowed in a value that is as long as its tag asks; nothing where the tag is no point's, whose value is empty.
pub fn value_refusal(tag: u8, value: &[u8]) -> Result<(), Refusal>
    requires { length value.now ≡ size_of (kind_of tag) }
    ensures { refusal_told result ≡ with_index (first_told (value_rows tag value.now)) tag value.now }
{
    match Point::new(tag, value) {
        Ok(point) => point.value_refusal(),
        Err(_) => Ok(()),
    }
}

// The point number at the front of a value: the paper's term, also for callers without a point.
pub fn number_of(value: &[u8]) -> [u8; NUMBER_LENGTH]
    requires { number_length ≤ length value.now }
    ensures { result ≡ number_of value.now }
{
    numbers::array_of(value)
}

// A point of the right form: its kind, and a value that is as long as the kind asks.
#[derive(Clone, Copy)]
pub struct Point<'a> {
    pub kind: Kind,
    pub value: &'a [u8],
    pub ghost sized: { length value.now ≡ size_of (kind_of (tag_of kind)) },
}

impl<'a> Point<'a> {
    // Refuses a tag of no point, and a value that is not as long as its tag says.
    pub fn new(tag: u8, value: &'a [u8]) -> Result<Point<'a>, Refusal>
        ensures told { number_told result ≡ first_told (form_rows tag (length value.now)) }
        ensures given { IfOk result (λ point. (tag_of point.kind ≡ tag) × (point.value.now ≡ value.now)) }
    {
        let kind = kind_of_length(tag, value.len())?;
        Ok(Point { kind, value })
    }

    // Its number.
    pub fn number(self) -> [u8; NUMBER_LENGTH]
        ensures { result ≡ number_of self.entry.value.now }
    {
        number_of(self.value)
    }

    // A class, a baseline or a share that is not allowed.
    fn unfit_refusal(self) -> Result<(), Refusal>
        ensures { number_told result ≡ first_told (unfit_row (tag_of self.entry.kind) self.entry.value.now) }
    {
        match self.kind {
            Kind::Consumer => Class::try_from(self.value[CLASS_AT]).map(|_| ()),
            Kind::Generator => refusals::within(
                numbers::word32_at(self.value, BASELINE_AT),
                0..=MOST_BASELINE,
                Refusal::ClassOrBaseline,
            ),
            Kind::MixedFiring => refusals::within(
                numbers::word16_at(self.value, SHARE_AT),
                0..=MOST_SHARE,
                Refusal::Share,
            ),
        }
    }

    // A reading above the limit, used or not.
    fn large_refusal(self) -> Result<(), Refusal>
        ensures { refusal_told result ≡ with_index (first_told (large_row (tag_of self.entry.kind) self.entry.value.now)) (tag_of self.entry.kind) self.entry.value.now }
    {
        match readings::first_large(&self.value[self.kind.readings_at()..]) {
            Some(index) => Err(self.kind.large(index as u32)),
            None => Ok(()),
        }
    }

    // A class, a baseline, a share or a reading that is not allowed.
    pub fn value_refusal(self) -> Result<(), Refusal>
        ensures { refusal_told result ≡ with_index (first_told (value_rows (tag_of self.entry.kind) self.entry.value.now)) (tag_of self.entry.kind) self.entry.value.now }
    {
        self.unfit_refusal()?;
        self.large_refusal()
    }
}
