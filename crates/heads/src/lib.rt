// The head and the calendar: decoding them, and what opening refuses in them.
#![tactic(auto)]

ghost use Rattle.std.specs.Prelude.{◌≡◌, ◌≤◌, length};
ghost use Rattle.numbers.specs.Refusals.{first_told};
ghost use Rattle.refusals.specs.Told.{number_told};
ghost use Rattle.heads.specs.Heads.{head_length, calendar_length, count_at, head_with, head_of};
ghost use Rattle.heads.specs.Heads.{day_rows, slot_row, loss_row, contract_row, counts, count_row};
ghost use Rattle.heads.specs.Heads.{content_refusal, opening_refusal};

use numbers::DAYS_BACK;
use refusals::Refusal;

// The limits that opening tests (specs/Limits).
const EARLIEST_SLOT: u8 = 18;

const LATEST_SLOT: u8 = 34;

const MOST_LOSS: u16 = 5000;

const LEAST_CONTRACT: u64 = 1000;

const MOST_CONTRACT: u64 = 10000000;

const LEAST_POINTS: u32 = 1;

pub const MOST_POINTS: u32 = 10000;

// The size that one slot result may have.
pub const MOST_RESULT: u64 = 4000000000;

// Tags and lengths of the values of a head and a calendar (specs/Heads). A tag is written once and matched once: an enum beside `Due`
// would say it again.
pub const HEAD_TAG: u8 = 1;

pub const HEAD_LENGTH: usize = 17;

pub const CALENDAR_TAG: u8 = 2;

pub const CALENDAR_LENGTH: usize = 30;

// Where a head's values begin.
const YEAR_AT: usize = 0;

const MONTH_AT: usize = 2;

const DAY_AT: usize = 3;

const SLOT_AT: usize = 4;

const LOW_LOSS_AT: usize = 5;

const HIGH_LOSS_AT: usize = 7;

const EXTRA_HIGH_LOSS_AT: usize = 9;

const CONTRACT_AT: usize = 11;

pub const COUNT_AT: usize = 15;

// The values of a head (document 01, 'The test book').
#[derive(Clone, Copy, Debug, Default, PartialEq, Eq)]
pub struct Head {
    pub year: u16,
    pub month: u8,
    pub day: u8,
    // s, the first slot of the window
    pub slot: u8,
    // low, high, extra-high, in hundredths of a percent
    pub losses: [u16; 3],
    // kW
    pub contract: u32,
    pub count: u32,
}

// The values of a head with a count of any length.
pub fn head_with(count: u32, bytes: &[u8]) -> Head
    requires { count_at ≤ length bytes.now }
    ensures { result ≡ head_with count bytes.now }
{
    let year = numbers::word16_at(bytes, YEAR_AT);
    let low = numbers::word16_at(bytes, LOW_LOSS_AT);
    let high = numbers::word16_at(bytes, HIGH_LOSS_AT);
    let extra_high = numbers::word16_at(bytes, EXTRA_HIGH_LOSS_AT);
    let contract = numbers::word32_at(bytes, CONTRACT_AT);
    Head {
        year,
        month: bytes[MONTH_AT],
        day: bytes[DAY_AT],
        slot: bytes[SLOT_AT],
        losses: [low, high, extra_high],
        contract,
        count,
    }
}

// The values of a head's seventeen bytes.
pub fn head_of(bytes: &[u8]) -> Head
    requires { length bytes.now ≡ head_length }
    ensures { result ≡ head_of bytes.now }
{
    head_with(u32::from(numbers::word16_at(bytes, COUNT_AT)), bytes)
}

// No such date, or a Saturday or Sunday.
fn day_refusal(head: Head) -> Result<(), Refusal>
    ensures { number_told result ≡ first_told (day_rows head) }
{
    let year = head.year;
    let month = head.month;
    let day = head.day;
    if !calendar::is_date(year, month, day) {
        return Err(Refusal::NoSuchDate);
    }
    if calendar::is_weekend(calendar::day_count(year, month, day)) {
        return Err(Refusal::Weekend);
    }
    Ok(())
}

// The window begins at 9:00 at the earliest and ends at 20:00 at the latest. Document 01 names a match for marks, tags, classes and slots.
fn slot_refusal(slot: u8) -> Result<(), Refusal>
    ensures { number_told result ≡ first_told (slot_row slot) }
{
    match slot {
        EARLIEST_SLOT..=LATEST_SLOT => Ok(()),
        _ => Err(Refusal::WindowSlot),
    }
}

// A loss above fifty percent.
fn loss_refusal(losses: [u16; 3]) -> Result<(), Refusal>
    ensures { number_told result ≡ first_told (loss_row losses) }
{
    if losses.iter().any(|loss| MOST_LOSS < *loss) {
        return Err(Refusal::Loss);
    }
    Ok(())
}

// No contract, or one of 1,000 to 10,000,000 kW.
pub fn contract_refusal(contract: u64) -> Result<(), Refusal>
    ensures { number_told result ≡ first_told (contract_row contract) }
{
    if contract == 0 {
        return Ok(());
    }
    refusals::within(contract, LEAST_CONTRACT..=MOST_CONTRACT, Refusal::Contract)
}

// A list has 1 to 10,000 points.
pub fn count_refusal(count: u32) -> Result<(), Refusal>
    ensures { number_told result ≡ first_told (count_row counts count) }
{
    refusals::within(count, LEAST_POINTS..=MOST_POINTS, Refusal::Count)
}

// What opening refuses in the values of a head and a calendar, 2 to 8. It is also asked of a state's contents. Head
// and marks stand side by side, as they do in the state, whose fields the definitions name. Inlined, so that no copy of
// them is made for the call.
#[inline(always)]
pub fn content_refusal(head: Head, marks: [u8; DAYS_BACK]) -> Result<(), Refusal>
    ensures { number_told result ≡ content_refusal head marks }
{
    day_refusal(head)?;
    slot_refusal(head.slot)?;
    loss_refusal(head.losses)?;
    contract_refusal(u64::from(head.contract))?;
    count_refusal(head.count)?;
    calendar::marks_refusal(&marks)
}

// What opening refuses in the bytes of a head and a calendar, 1 to 8.
pub fn opening_refusal(head: &[u8], calendar: &[u8]) -> Result<(), Refusal>
    ensures { number_told result ≡ opening_refusal head.now calendar.now }
{
    if head.len() != HEAD_LENGTH || calendar.len() != CALENDAR_LENGTH {
        return Err(Refusal::Lengths);
    }
    content_refusal(head_of(head), numbers::array_of(calendar))
}
