//! How a quarter hour is settled in a community, with any key that keeps its law.
ghost use Rattle.std.specs.Prelude.{◌≡◌, ℕ, ◌-◌, ◌<◌, ◌≤◌, ◌++◌, min};
ghost use Rattle.quantities.specs.Limits.{drawing, places};
ghost use Rattle.quantities.specs.Rows.{at, row};
ghost use Rattle.settlement.specs.Laws.{Conserves, SettlementLaws};
ghost use Rattle.settlement.specs.Points.{draws_of, entitled_row, fed_with, generation_of, left_in, remaining_row, settled_row, whole_of};

use crate::quarter_hour::{QuarterHour, Settlement, brought_together, sums_over};
use keys::key::Key;
use keys::sums::{Division, Sums};
use quantities::amounts::together;
use quantities::cut::cut_up_to;
use quantities::limits::{DRAWING, FEEDING, PLACES};
use std::array;

// One drawing place: it settles its entitlement, as far as it draws that much. That is no more than
// the draw, so it fits.
fn settle_draw(entitled: u64, draw: u32) -> u32
    ensures { result ≡ min entitled draw }
{
    entitled.min(u64::from(draw)) as u32
}

// One row of what the drawing places and what the feeding places have.
fn joined(drawing: &[u32; DRAWING], feeding: &[u32; FEEDING]) -> [u32; PLACES]
    ensures { result ≡ drawing.now ++ feeding.now }
{
    let mut row = [0; PLACES];
    let (front, back) = row.split_at_mut(DRAWING);
    front.copy_from_slice(drawing);
    back.copy_from_slice(feeding);
    row
}

impl QuarterHour {
    // What the members feed together.
    fn generation(&self) -> u64
        ensures { result ≡ generation_of self.now }
    {
        brought_together(self.feeding())
    }

    // The sums of the shares and draws of all members that draw.
    fn whole_sums(&self) -> Sums
        ensures { result ≡ whole_of self.now }
    {
        sums_over(self.drawing())
    }

    // What a key divides here, and by what.
    fn division(&self) -> Division
        ensures generation { result.generation ≡ generation_of self.now }
        ensures whole { result.whole ≡ whole_of self.now }
    {
        Division {
            generation: self.generation(),
            whole: self.whole_sums(),
        }
    }

    /// What the key entitles each drawing place to: its promise with the place less that before it.
    pub fn entitlements<K: Key>(&self, key: &K) -> [u64; DRAWING]
        ensures { result ≡ entitled_row (K.promised key.now) self.now }
    {
        let division = self.division();
        let mut running = Sums::default();
        let mut before = 0;
        let mut entitled = [0; DRAWING];
        // By place: a proof forgets what is written through `iter_mut` beside another iterator.
        for (place, point) in self.drawing().iter().enumerate() {
            running.share += u64::from(point.weight());
            running.draw += u64::from(point.brought());
            let after = key.promise(division, running);
            entitled[place] = after - before;
            before = after;
        }
        entitled
    }

    // What each drawing place settles of its entitlement.
    fn settled_draws(&self, entitled: &[u64; DRAWING]) -> [u32; DRAWING]
        ensures { result ≡ row drawing (λ p. min (at entitled.now p) (draws_of self.now p)) }
    {
        array::from_fn(|place| settle_draw(entitled[place], self.points[place].brought()))
    }

    // What each feeding place settles of its feed where the drawing places have used so much: the
    // surplus is cut over the feeds, and each place settles the rest of its feed.
    fn settled_feeds(&self, used: u64) -> [u32; FEEDING]
        ensures { result ≡ fed_with self.now used }
    {
        let generation = self.generation();
        let surplus = generation.saturating_sub(used);
        let mut sum = 0;
        let mut before = 0;
        let mut settled = [0; FEEDING];
        // By place, as above.
        for (i, point) in self.feeding().iter().enumerate() {
            let feed = point.brought();
            sum += u64::from(feed);
            let after = cut_up_to(surplus, sum, generation);
            // No more than the feed, so it fits.
            settled[i] = (u128::from(feed) - (after - before)) as u32;
            before = after;
        }
        settled
    }

    // What remains of what each place had left.
    fn remainders(&self, settled: &[u32; PLACES]) -> [u32; PLACES]
        requires { (p : ℕ) → p < places → at settled.now p ≤ left_in self.now p }
        ensures { result ≡ row places (λ p. left_in self.now p - at settled.now p) }
    {
        array::from_fn(
            |place|
                requires inside { place < places }
                requires enough { at settled.now place ≤ left_in self.now place }
                ensures { result ≡ left_in self.entry.now place - at settled.entry.now place }
            { self.points[place].left - settled[place] },
        )
    }

    /// Settles the quarter hour: the entitlements, what every place settles, and what remains.
    pub fn settle<K: Key>(&self, key: &K) -> Settlement
        ensures entitles { result.entitled ≡ entitled_row (K.promised key.now) self.now }
        ensures settles { result.settled ≡ settled_row (K.promised key.now) self.now }
        ensures leaves { result.remainder ≡ remaining_row (K.promised key.now) self.now }
        ensures conserves { Conserves (left_in self.now) (at result.settled) (at result.remainder) }
        ensures laws { SettlementLaws }
    {
        let entitled = self.entitlements(key);
        let drawn = self.settled_draws(&entitled);
        let fed = self.settled_feeds(together(&drawn));
        let settled = joined(&drawn, &fed);
        let remainder = self.remainders(&settled);
        Settlement {
            entitled,
            settled,
            remainder,
        }
    }
}
