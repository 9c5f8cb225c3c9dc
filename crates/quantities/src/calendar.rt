//! Days and their quarter hours. What other crates know of their number, they know from here.
ghost use Rattle.quantities.specs.Calendar.{covers, quarter_hours, quarters, whole_days};
ghost use Rattle.std.specs.Prelude.{◌≡◌};

// Every day has 96 quarter hours, numbered from 0.
const QUARTERS: u8 = 96;

/// Consecutive days: the first, and how many, possibly none.
#[derive(Clone, Copy, Debug, PartialEq, Eq)]
pub struct Span {
    pub first: u16,
    pub days: u16,
}

#[tactic(auto, unfolding(crate::specs::Calendar::quarters))]
pub fn quarters_of(_day: u16) -> u8
    ensures { result ≡ quarters _day }
{
    QUARTERS
}

impl Span {
    /// The most days from the first on, up to a limit, that have together no more than so many
    /// quarter hours.
    #[tactic(auto, using(crate::proofs::Days::whole_days_is))]
    pub fn of_whole_days(first: u16, count: usize, limit: u16) -> Span
        ensures { result ≡ record { first = first; days = whole_days first count limit } }
    {
        // No more than the limit, so it fits.
        let days = (count / usize::from(QUARTERS)).min(usize::from(limit)) as u16;
        Span { first, days }
    }

    #[tactic(auto, using(crate::proofs::Days::quarter_hours_is))]
    pub fn quarter_hours(self) -> u32
        ensures { result ≡ quarter_hours self.first self.days }
    {
        u32::from(QUARTERS) * u32::from(self.days)
    }

    /// Whether a quarter hour is one of the span.
    pub fn covers(self, day: u16, quarter: u8) -> bool
        ensures { result ≡ covers self day quarter }
    {
        self.first <= day && day - self.first < self.days && quarter < quarters_of(day)
    }
}
