// Dates, their counts and weekdays, marks, eligible days.
#![tactic(auto)]

ghost use Rattle.std.specs.Prelude.{◌≡◌, [], ◌∷◌, true, not, ◌&&◌, ◌≤◌, eqb, IfSome, IfNone};
ghost use Rattle.numbers.specs.Lists.{run};
ghost use Rattle.numbers.specs.Refusals.{first_told};
ghost use Rattle.refusals.specs.Told.{number_told};
ghost use Rattle.numbers.specs.Slots.{days_back};
ghost use Rattle.calendar.specs.Dates.{first_day, last_day, IsMonth, is_leap, days_in, is_date, day_count, is_weekend};
ghost use Rattle.calendar.specs.FromMarch.{month_from_march, year_from_march, days_from_march, end_from_march};
ghost use Rattle.calendar.specs.Eligible.{no_mark, mark_row, is_eligible, Decodes};

use numbers::DAYS_BACK;
use refusals::Refusal;
use std::array;

const FEBRUARY: u8 = 2;

// The days of a common year.
const COMMON_YEAR: u32 = 365;

// The count of 2000-03-01.
const MARCH_2000: u32 = 60;

// The mark of a day back.
#[derive(Clone, Copy, Debug, PartialEq, Eq)]
pub enum Mark {
    Unmarked,
    NationalHoliday,
    // By the grid operator.
    EarlierDispatch,
    // Excluded on application.
    EconomicDispatch,
}

impl TryFrom<u8> for Mark {
    type Error = Refusal;

    ghost try_from_gives = { Decodes };

    fn try_from(code: u8) -> Result<Self, Refusal> {
        match code {
            0 => Ok(Mark::Unmarked),
            1 => Ok(Mark::NationalHoliday),
            2 => Ok(Mark::EarlierDispatch),
            3 => Ok(Mark::EconomicDispatch),
            _ => Err(Refusal::Mark),
        }
    }
}

// One of the twelve months.
#[derive(Clone, Copy)]
struct Month {
    number: u8,
    ghost is_month: { IsMonth number },
}

impl Month {
    fn new(number: u8) -> Option<Month>
        ensures some { IfSome result (λ month. month.number ≡ number) }
        ensures none { IfNone result (IsMonth number → ⊥) }
    {
        match number {
            1..=12 => Some(Month { number }),
            _ => None,
        }
    }

    // Counted from March as 0, which makes January and February the last two.
    fn from_march(self) -> u8
        ensures { result ≡ month_from_march self.number }
    {
        (self.number + 9) % 12
    }

    // The year it belongs to, where years begin with March.
    fn year_from_march(self, year: u16) -> u16
        requires { 1 ≤ year }
        ensures { result ≡ year_from_march year self.number }
    {
        year - u16::from(self.number <= FEBRUARY)
    }

    // The days before its end in a year that begins with March: it ends where the next month begins, and February with the year.
    fn end_from_march(self, year: u16) -> u32
        ensures { result ≡ end_from_march year self.number }
    {
        if self.number == FEBRUARY {
            COMMON_YEAR + u32::from(is_leap(year))
        } else {
            days_from_march(self.from_march() + 1)
        }
    }

    // Its days.
    fn days_in(self, year: u16) -> u8
        ensures { result ≡ days_in year self.number }
    {
        (self.end_from_march(year) - days_from_march(self.from_march())) as u8
    }
}

// The days before a month in a year that begins with March, the month 0.
fn days_from_march(month: u8) -> u32
    ensures { result ≡ days_from_march month }
{
    (153 * u32::from(month) + 2) / 5
}

// From 2000 to 2099 each fourth year is a leap year.
fn is_leap(year: u16) -> bool
    ensures { result ≡ is_leap year }
{
    year % 4 == 0
}

// Whether there is such a date from 2020-01-01 to 2099-12-31.
pub fn is_date(year: u16, month: u8, day: u8) -> bool
    ensures { result ≡ is_date year month day }
{
    (2020..=2099).contains(&year)
        && Month::new(month).is_some_and(|month| (1..=month.days_in(year)).contains(&day))
}

// The count of a date in days from 2000-01-01, a Saturday, as 0. Opening and adding have the three in a head: a date of its own would be
// made to be taken apart.
pub fn day_count(year: u16, month: u8, day: u8) -> u32
    requires { is_date year month day ≡ true }
    ensures counted { result ≡ day_count year month day }
    ensures within { (first_day ≤ result) × (result ≤ last_day) }
{
    let of_date = Month { number: month };
    let years = u32::from(of_date.year_from_march(year) - 2000);
    let before_month = days_from_march(of_date.from_march());
    MARCH_2000 + COMMON_YEAR * years + years / 4 + before_month + u32::from(day - 1)
}

// The count's remainder by 7 gives the weekday: 0 Saturday, 1 Sunday.
pub fn is_weekend(count: u32) -> bool
    ensures { result ≡ is_weekend count }
{
    count % 7 <= 1
}

// Marks of which one is none of the four.
pub fn marks_refusal(marks: &[u8]) -> Result<(), Refusal>
    ensures { number_told result ≡ first_told (mark_row marks.now) }
{
    for mark in marks {
        Mark::try_from(*mark)?;
    }
    Ok(())
}

// Whether a day is eligible, by its count and its mark.
fn is_eligible(count: u32, mark: u8) -> bool
    ensures { result ≡ not (is_weekend count) && eqb mark no_mark }
{
    !is_weekend(count) && matches!(Mark::try_from(mark), Ok(Mark::Unmarked))
}

// Which of the days 1 to 30 back are eligible; day k back stands at place k - 1.
pub fn eligible_days(test: u32, marks: [u8; DAYS_BACK]) -> [bool; DAYS_BACK]
    requires { days_back ≤ test }
    ensures { result ≡ run (is_eligible test marks) 1 days_back }
{
    array::from_fn(|k| is_eligible(test - (k + 1) as u32, marks[k]))
}
