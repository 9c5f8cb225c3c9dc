//! A quarter hour in a community, before and after it is settled.
ghost use Rattle.std.specs.Prelude.{◌≡◌, ◌<◌, ◌^◌, drop, length, take};
ghost use Rattle.std.specs.List.{sum_by};
ghost use Rattle.quantities.specs.Limits.{drawing, feeding, places};
ghost use Rattle.quantities.specs.Rows.{at, maybe_at};
ghost use Rattle.settlement.specs.Points.{brings, left_in, share_in, weight};

use keys::sums::Sums;
use quantities::limits::{DRAWING, PLACES};
use std::array;

/// A metering point: its share, none where it is no member, and what it has left of its reading by
/// the communities below.
#[derive(Clone, Copy, Debug, PartialEq, Eq)]
pub struct Point {
    pub share: Option<u32>,
    pub left: u32,
}

/// A quarter hour before it is settled: its points, by place.
#[derive(Clone, Copy, Debug, PartialEq, Eq)]
pub struct QuarterHour {
    pub points: [Point; PLACES],
}

/// After it is settled: what the drawing places were entitled to, what each place settles in the
/// community, and what remains of what it had left. By rows, since each goes on whole: the settled
/// amounts to the sums, the remainders to the community above.
#[derive(Clone, Copy, Debug, PartialEq, Eq)]
pub struct Settlement {
    pub entitled: [u64; DRAWING],
    pub settled: [u32; PLACES],
    pub remainder: [u32; PLACES],
}

impl Point {
    // The share that it counts with: 0 where it is no member.
    pub(crate) fn weight(self) -> u32
        ensures { result ≡ weight self }
    {
        self.share.unwrap_or(0)
    }

    // What it draws or feeds here: all that it has left, or 0 where it is no member.
    pub(crate) fn brought(self) -> u32
        ensures { result ≡ brings self }
    {
        self.share.map_or(0, |_| self.left)
    }
}

// What these points draw or feed together. A function over points, since the check finds the bound of
// a chain's sum by the length of a slice that is handed in.
pub(crate) fn brought_together(points: &[Point]) -> u64
    requires { length points.now < 2 ^ 32 }
    ensures { result ≡ sum_by brings points.now }
{
    points.iter().map(|point| u64::from(point.brought())).sum()
}

// The sums of the shares and draws of these points.
pub(crate) fn sums_over(points: &[Point]) -> Sums
    requires { length points.now < 2 ^ 32 }
    ensures share { result.share ≡ sum_by weight points.now }
    ensures draw { result.draw ≡ sum_by brings points.now }
{
    Sums {
        share: points.iter().map(|point| u64::from(point.weight())).sum(),
        draw: brought_together(points),
    }
}

impl QuarterHour {
    /// The points with these shares and with what they have left.
    pub fn new(shares: &[Option<u32>; PLACES], left: &[u32; PLACES]) -> QuarterHour
        ensures shares { share_in result ≡ maybe_at shares.now }
        ensures left { left_in result ≡ at left.now }
    {
        QuarterHour {
            points: array::from_fn(
                |place|
                    requires { place < places }
                    ensures share { result.share ≡ maybe_at shares.entry.now place }
                    ensures left { result.left ≡ at left.entry.now place }
                {
                    Point {
                        share: shares[place],
                        left: left[place],
                    }
                },
            ),
        }
    }

    // The points at drawing places.
    pub(crate) fn drawing(&self) -> &[Point]
        ensures points { result.now ≡ take drawing self.now.points }
        ensures count { length result.now ≡ drawing }
    {
        let (drawing, _) = self.points.split_at(DRAWING);
        drawing
    }

    // The points at feeding places.
    pub(crate) fn feeding(&self) -> &[Point]
        ensures points { result.now ≡ drop drawing self.now.points }
        ensures count { length result.now ≡ feeding }
    {
        let (_, feeding) = self.points.split_at(DRAWING);
        feeding
    }
}
