//! What a register tells of a day.
ghost use Rattle.std.specs.Prelude.{◌≡◌, ℕ, ◌^◌, ◌<◌, filter_map, map, sum};
ghost use Rattle.quantities.specs.Limits.{places};
ghost use Rattle.register.specs.Calls.{row_of, rows_of};
ghost use Rattle.register.specs.Memberships.{MembershipsOf};
ghost use Rattle.register.specs.Rows.{entries};
ghost use Rattle.register.specs.Shares.{corrected_answer, share_answer, share_on, shares_on, total, total_answer};

use crate::register::Register;
use crate::row::Row;
use quantities::limits::{DRAWING, Day, PLACES, within};
use quantities::refusal::Refusal;
use quantities::share::corrected_share;
use std::array;

// The shares of rows on a day, place by place.
fn shares_of(rows: &[Row; PLACES], day: u16) -> [Option<u32>; PLACES]
    ensures { result ≡ shares_on (map entries rows.now) day }
{
    array::from_fn(
        |place|
            requires { place < places }
            ensures { result ≡ share_on (row_of (map entries rows.entry.now) place) day }
        { rows[place].share_on(day) },
    )
}

// What the shares of rows on a day add up to.
fn sum_of(rows: &[Row], day: u16) -> u32
    requires { sum (filter_map (λ row. share_on (entries row) day) rows.now) < 2 ^ 32 }
    ensures { result ≡ sum (filter_map (λ row. share_on (entries row) day) rows.now) }
{
    rows.iter().filter_map(|row| row.share_on(day)).sum()
}

impl Register {
    /// The share of a place on a day, or none.
    #[tactic(auto, using(crate::proofs::Members::memberships_in))]
    pub fn share(&self, place: u8, day: u16) -> Result<Option<u32>, Refusal>
        ensures answer { result ≡ share_answer (rows_of self.now) place day }
        ensures memberships { place < places → MembershipsOf (row_of (rows_of self.now) place) }
    {
        let row = self.row(place)?;
        within::<Day>(u32::from(day))?;
        Ok(row.share_on(day))
    }

    #[tactic(auto, using(crate::proofs::Totals::total_by_rows))]
    fn total_of(&self, day: u16) -> u32
        ensures { result ≡ total (rows_of self.now) day }
    {
        sum_of(&self.rows[..DRAWING], day)
    }

    /// The total of a day: the shares of the drawing places that take part.
    pub fn total(&self, day: u16) -> Result<u32, Refusal>
        ensures { result ≡ total_answer (rows_of self.now) day }
    {
        within::<Day>(u32::from(day))?;
        Ok(self.total_of(day))
    }

    /// The share of a place on a day as it counts by that day's total, or none.
    pub fn corrected(&self, place: u8, day: u16) -> Result<Option<u32>, Refusal>
        ensures { result ≡ corrected_answer (rows_of self.now) place day }
    {
        let share = self.share(place, day)?;
        Ok(share.map(|share| corrected_share(share, self.total_of(day))))
    }

    /// The shares of all places on a day.
    #[tactic(auto, using(crate::proofs::Members::memberships_in))]
    pub fn shares(&self, day: u16) -> [Option<u32>; PLACES]
        ensures shares { result ≡ shares_on (rows_of self.now) day }
        ensures memberships { (place : ℕ) → place < places → MembershipsOf (row_of (rows_of self.now) place) }
    {
        shares_of(&self.rows, day)
    }
}
