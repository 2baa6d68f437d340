// Result records (CR 4): the eight words of one, the rules that it shows by itself, and the sums over up to 500 of them.
#![tactic(auto)]

mod rules;

ghost use Rattle.std.specs.Prelude.{◌≡◌, ◌+◌, ◌<◌, ◌^◌, nat_abs, length};
ghost use Rattle.numbers.specs.Refusals.{first_told};
ghost use Rattle.refusals.specs.Told.{number_told};
ghost use Rattle.records.specs.Records.{record_length, record_of};
ghost use Rattle.records.specs.Report.{length_row, report_of};
ghost use Rattle.records.specs.Told.{report_told};
ghost use Rattle.records.specs.Summing.{Room, sums_with};

use integers::signed_word_at;
use refusals::Refusal;

// The bytes of a record: eight words of eight bytes.
pub const RECORD_LENGTH: usize = 64;

// The records that a report is of, at most.
pub const MOST_RECORDS: usize = 500;

// The words of a record, whatever they are.
#[derive(Clone, Copy)]
pub struct Record {
    pub total: i64,
    pub settled: i64,
    pub shortfall: i64,
    pub expected: i64,
    pub kept: i64,
    pub surplus: i64,
    pub points: i64,
    pub bid: i64,
}

// How many records there are, and the sums over them of their words.
#[derive(Clone, Copy, Default)]
pub struct Sums {
    pub records: u32,
    pub points: i64,
    pub total: i64,
    pub settled: i64,
    pub shortfall: i64,
    pub expected: i64,
    pub kept: i64,
    pub surplus: i64,
}

// The words of a record's 64 bytes.
fn record_of(bytes: &[u8]) -> Record
    requires { length bytes.now ≡ record_length }
    ensures { result ≡ record_of bytes.now }
{
    Record {
        total: signed_word_at(bytes, 0),
        settled: signed_word_at(bytes, 8),
        shortfall: signed_word_at(bytes, 16),
        expected: signed_word_at(bytes, 24),
        kept: signed_word_at(bytes, 32),
        surplus: signed_word_at(bytes, 40),
        points: signed_word_at(bytes, 48),
        bid: signed_word_at(bytes, 56),
    }
}

// Whole records, and not too many of them.
fn length_refusal(size: usize) -> Result<(), Refusal>
    ensures { number_told result ≡ first_told (length_row size) }
{
    if size % RECORD_LENGTH != 0 || RECORD_LENGTH * MOST_RECORDS < size {
        return Err(Refusal::RecordsLength);
    }
    Ok(())
}

impl Sums {
    // The sums with those words, too.
    fn with(self, words: Record) -> Sums
        requires { Room self words }
        ensures { result ≡ sums_with self words }
    {
        Sums {
            records: self.records + 1,
            points: self.points + words.points,
            total: self.total + words.total,
            settled: self.settled + words.settled,
            shortfall: self.shortfall + words.shortfall,
            expected: self.expected + words.expected,
            kept: self.kept + words.kept,
            surplus: self.surplus + words.surplus,
        }
    }
}

// The half-year report: the sums over the records, or the one refusal, which carries the place of a record that breaks a rule.
pub fn report_of(bytes: &[u8]) -> Result<Sums, Refusal>
    ensures { report_told result ≡ report_of bytes.now }
{
    length_refusal(bytes.len())?;
    let (records, _) = bytes.as_chunks::<RECORD_LENGTH>();
    let mut sums = Sums::default();
    for record in records {
        let words = record_of(record);
        if rules::breaks_rule(words) {
            return Err(Refusal::RecordRule(sums.records));
        }
        sums = sums.with(words);
    }
    Ok(sums)
}
