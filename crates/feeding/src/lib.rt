// A book that comes field by field: one header or one value is held at a time.
#![tactic(auto)]

ghost use Rattle.std.specs.Prelude.{◌≡◌, ◌≤◌, length};
ghost use Rattle.heads.specs.Heads.{head_tag, head_length, calendar_tag};
ghost use Rattle.points.specs.Points.{consumer_length};
ghost use Rattle.feeding.specs.Feeding.{due_of, is_over, start_of, most_feedings, point_or_end, at_points};
ghost use Rattle.feeding.specs.Feeding.{header_fed, got, value_fed, end_fed, feed_of};
ghost use Rattle.feeding.specs.Told.{progress_told, fed_told};
ghost use Rattle.fields.specs.declared.Due.TheVariants.{Head, Calendar, Point};

use fields::{Due, HEADER_LENGTH, cutting};
use heads::HEAD_LENGTH;
use ledger::State;
use numbers::WINDOW_SLOTS;
use refusals::Refusal;

// What is waited for: a header, the value behind one, the end of the book, or nothing more.
#[derive(Clone, Copy, Debug, PartialEq, Eq)]
pub enum Wait {
    Header(Due),
    Value(Due, u8),
    End,
    Nothing,
}

// A reading that no refusal has ended. The head is kept until the calendar comes; once nothing more is waited for, the state is that after
// the last point.
#[derive(Clone, Copy)]
pub struct Progress {
    pub wait: Wait,
    pub head: [u8; HEAD_LENGTH],
    pub state: State,
}

impl Wait {
    // How many bytes are due.
    pub fn due(self) -> usize
        ensures value { result ≡ due_of self }
        ensures bound { result ≤ consumer_length }
    {
        match self {
            Wait::Header(_) => HEADER_LENGTH,
            Wait::Value(kind, tag) => cutting::length_due(kind, tag),
            Wait::End => 1,
            Wait::Nothing => 0,
        }
    }

    // Whether the reading has ended.
    pub fn is_over(self) -> bool
        ensures { result ≡ is_over self }
    {
        matches!(self, Wait::Nothing)
    }

    // Points are due until the count is reached.
    fn point_or_end(points: u32, count: u32) -> Wait
        ensures { result ≡ point_or_end points count }
    {
        if points < count {
            Wait::Header(Due::Point)
        } else {
            Wait::End
        }
    }
}

// How many feedings the longest book takes.
pub fn most_feedings() -> u32
    ensures { result ≡ most_feedings }
{
    2 * (2 + heads::MOST_POINTS) + 1
}

impl Progress {
    // Before the first byte.
    pub fn start() -> Progress
        ensures { progress_told result ≡ start_of }
    {
        Progress {
            wait: Wait::Header(Due::Head),
            head: [0; HEAD_LENGTH],
            state: ledger::states::no_state(),
        }
    }

    // What follows an accepted opening or adding.
    fn at_points(self, state: State) -> Progress
        ensures { progress_told result ≡ at_points state (progress_told self) }
    {
        Progress {
            wait: Wait::point_or_end(state.points, state.head.count),
            state,
            ..self
        }
    }

    #[tactic(auto, using(refusals::proofs::Refused::refused), unfolding(crate::specs::Feeding::header_fed))]
    fn feed_header(self, kind: Due, bytes: &[u8]) -> Result<Progress, Refusal>
        ensures { fed_told self result ≡ header_fed kind (progress_told self) bytes.now }
    {
        let tag = cutting::header_tag(kind, bytes)?;
        Ok(Progress {
            wait: Wait::Value(kind, tag),
            ..self
        })
    }

    // The bytes of a head are kept until the calendar comes.
    fn got_head(self, value: &[u8]) -> Progress
        requires { length value.now ≡ head_length }
        ensures { progress_told result ≡ got Head head_tag (progress_told self) value.now }
    {
        Progress {
            wait: Wait::Header(Due::Calendar),
            head: numbers::array_of(value),
            ..self
        }
    }

    fn got_calendar(self, value: &[u8]) -> Result<Progress, Refusal>
        ensures { fed_told self result ≡ got Calendar calendar_tag (progress_told self) value.now }
    {
        let state = ledger::open(&self.head, value)?;
        Ok(self.at_points(state))
    }

    fn got_point(self, tag: u8, value: &[u8]) -> Result<Progress, Refusal>
        ensures { fed_told self result ≡ got Point tag (progress_told self) value.now }
    {
        let mut places = [0i64; WINDOW_SLOTS];
        let added = ledger::add(self.state, tag, value, &mut places)?;
        Ok(self.at_points(added.state))
    }

    fn feed_value(self, kind: Due, tag: u8, bytes: &[u8]) -> Result<Progress, Refusal>
        ensures { fed_told self result ≡ value_fed kind tag (progress_told self) bytes.now }
    {
        let size = cutting::length_due(kind, tag);
        if bytes.len() < size {
            return Err(Refusal::BookCut);
        }
        let value = &bytes[..size];
        match kind {
            Due::Head => Ok(self.got_head(value)),
            Due::Calendar => self.got_calendar(value),
            Due::Point => self.got_point(tag, value),
        }
    }

    #[tactic(auto, unfolding(crate::specs::Feeding::end_fed))]
    fn feed_end(self, bytes: &[u8]) -> Result<Progress, Refusal>
        ensures { fed_told self result ≡ end_fed (progress_told self) bytes.now }
    {
        if !bytes.is_empty() {
            return Err(Refusal::BytesAfter);
        }
        Ok(Progress {
            wait: Wait::Nothing,
            ..self
        })
    }

    // The bytes that come next, as many as are due: fewer mean that the book ends there. A refusal ends the reading.
    pub fn feed(self, bytes: &[u8]) -> Result<Progress, Refusal>
        ensures { fed_told self result ≡ feed_of (progress_told self) bytes.now }
    {
        match self.wait {
            Wait::Header(kind) => self.feed_header(kind, bytes),
            Wait::Value(kind, tag) => self.feed_value(kind, tag, bytes),
            Wait::End => self.feed_end(bytes),
            Wait::Nothing => Ok(self),
        }
    }
}
