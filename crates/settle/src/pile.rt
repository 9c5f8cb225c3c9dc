//! Two communities, one on the other: the upper one settles what the lower one leaves.
ghost use Rattle.std.specs.Prelude.{◌≡◌, ◌<◌};
ghost use Rattle.quantities.specs.Limits.{places};
ghost use Rattle.quantities.specs.Rows.{at, row};
ghost use Rattle.register.specs.Calls.{rows_of};
ghost use Rattle.register.specs.Shares.{shares_on};
ghost use Rattle.settle.specs.Left.{left_with};
ghost use Rattle.settle.specs.Settled.{SettledIn, SettledInBoth};
ghost use Rattle.settle.specs.Two.{ConservesInBoth};
ghost use Rattle.settlement.specs.Laws.{Conserves};

use keys::key::{Dynamic, Key, Static};
use quantities::limits::PLACES;
use register::register::Register;
use settlement::quarter_hour::{QuarterHour, Settlement};
use std::array;

/// A quarter hour in one community, before and after it is settled.
#[derive(Clone, Copy, Debug, PartialEq, Eq)]
pub struct Level {
    pub hour: QuarterHour,
    pub settlement: Settlement,
}

/// The members of both communities on a day, by their shares. By rows, since each is a register's answer
/// and goes whole into a quarter hour.
#[derive(Clone, Copy, Debug, PartialEq, Eq)]
pub struct Pile {
    pub lower: [Option<u32>; PLACES],
    pub upper: [Option<u32>; PLACES],
}

/// A quarter hour in both. One generic struct for this and `Pile` would have no name that says either.
#[derive(Clone, Copy, Debug, PartialEq, Eq)]
pub struct Levels {
    pub lower: Level,
    pub upper: Level,
}

fn settle_level<K: Key>(key: &K, shares: &[Option<u32>; PLACES], left: &[u32; PLACES]) -> Level
    ensures settles { SettledIn (K.promised key.now) shares.now left.now result }
    ensures conserves { Conserves (at left.now) (at result.settlement.settled) (at result.settlement.remainder) }
{
    let hour = QuarterHour::new(shares, left);
    let settlement = hour.settle(key);
    Level { hour, settlement }
}

impl Pile {
    /// The members of the two registers on a day.
    pub fn on_day(lower: &Register, upper: &Register, day: u16) -> Pile
        ensures lower { result.lower ≡ shares_on (rows_of lower.now) day }
        ensures upper { result.upper ≡ shares_on (rows_of upper.now) day }
    {
        Pile {
            lower: lower.shares(day),
            upper: upper.shares(day),
        }
    }

    /// Settles one quarter hour's readings: by shares below, by draws above.
    pub fn settle(&self, readings: &[u32; PLACES]) -> Levels
        ensures settles { SettledInBoth self.now readings.now result }
        ensures conserves { ConservesInBoth readings.now result.lower.settlement.settled result.upper.settlement.settled result.upper.settlement.remainder }
    {
        let lower = settle_level(&Static, &self.lower, readings);
        let upper = settle_level(&Dynamic, &self.upper, &lower.settlement.remainder);
        Levels { lower, upper }
    }

    /// What remains with each member of either community; 0 with any other place.
    pub fn left_with_each(&self, rest: &[u32; PLACES]) -> [u32; PLACES]
        ensures { result ≡ row places (left_with self.now rest.now) }
    {
        array::from_fn(
            |place|
                requires { place < places }
                ensures { result ≡ left_with self.entry.now rest.entry.now place }
            {
                if self.lower[place].is_some() || self.upper[place].is_some() {
                    rest[place]
                } else {
                    0
                }
            },
        )
    }
}
