// Prints a line for each date of the years 1999 to 2101, and for days that there are not, with what the calendar says of it
// (docs/VECTORS.md has the form).
#![tactic(auto)]

use std::fmt;

#[derive(Drop)]
struct DateText {
    year: u16,
    month: u8,
    day: u8,
}

impl fmt::Display for DateText {
    fn fmt<W: fmt::Write>(&self, f: &mut fmt::Formatter<W>) -> fmt::Result {
        let DateText { year, month, day } = *self;
        write!(f, "{year}-{month:02}-{day:02} ")?;
        if !calendar::is_date(year, month, day) {
            return write!(f, "none");
        }
        let count = calendar::day_count(year, month, day);
        let weekend = if calendar::is_weekend(count) {
            "yes"
        } else {
            "no"
        };
        write!(f, "{count} weekend {weekend}")
    }
}

// The days of a month, and a number on either side.
fn print_days(rt: &impl Print, year: u16, month: u8) -> fmt::Result {
    for day in 0..=32 {
        rt.println(DateText { year, month, day })
            .map_err(|_| fmt::Error)?;
    }
    Ok(())
}

// The months, and a number on either side.
fn print_months(rt: &impl Print, year: u16) -> fmt::Result {
    for month in 0..=13 {
        print_days(rt, year, month)?;
    }
    Ok(())
}

// From the year before the first day of the count to the second year behind the last date.
fn print_years(rt: &impl Print) -> fmt::Result {
    for year in 1999..=2101 {
        print_months(rt, year)?;
    }
    Ok(())
}

fn main(rt: HostRuntime) {
    if print_years(&rt).is_err() {
        let _ = rt.eprintln("every_date: standard output cannot be written");
    }
}
