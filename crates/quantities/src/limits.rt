//! The limits of readings, shares, days and places.
ghost use Rattle.quantities.specs.Checks.{unless};
ghost use Rattle.quantities.specs.Limits.{drawing, last_day, places, reading_limit, whole_share};
ghost use Rattle.quantities.specs.declared.refusal.Refusal.{Refusal as RefusalT};
ghost use Rattle.quantities.specs.declared.refusal.Refusal.TheVariants.{NoSuchDay, NoSuchPlace, ReadingTooLarge, ShareNotAllowed};
ghost use Rattle.std.specs.Prelude.{◌≡◌, ℕ, ◌-◌, [], ◌∷◌, nat_lt};

use crate::refusal::Refusal;

/// The largest reading of a quarter hour, in watt hours.
pub const READING_LIMIT: u32 = 4_000_000;

/// The whole, as a share: 100 percent in ten-thousandths of a percent.
pub const WHOLE_SHARE: u32 = 1_000_000;

/// The last day; day 0 is 1 January 2020.
pub const LAST_DAY: u16 = 36_523;

/// Places are metering points by number: the first 48 draw, the others feed.
pub const PLACES: usize = 64;

pub const DRAWING: usize = 48;

pub const FEEDING: usize = PLACES - DRAWING;

/// A kind of number, with the largest one and the refusal of a larger one. The largest is given by a
/// cast where it has another type, since a constant cannot call `from`.
pub trait Limited {
    ghost LARGEST: { ℕ };

    const LARGEST: u32;

    ghost REFUSAL: { RefusalT };

    const REFUSAL: Refusal;
}

pub enum Reading {}

impl Limited for Reading {
    ghost LARGEST = { reading_limit };

    const LARGEST: u32 = READING_LIMIT;

    ghost REFUSAL = { ReadingTooLarge };

    const REFUSAL: Refusal = Refusal::ReadingTooLarge;
}

pub enum Share {}

impl Limited for Share {
    ghost LARGEST = { whole_share };

    const LARGEST: u32 = WHOLE_SHARE;

    ghost REFUSAL = { ShareNotAllowed };

    const REFUSAL: Refusal = Refusal::ShareNotAllowed;
}

pub enum Day {}

impl Limited for Day {
    ghost LARGEST = { last_day };

    const LARGEST: u32 = LAST_DAY as u32;

    ghost REFUSAL = { NoSuchDay };

    const REFUSAL: Refusal = Refusal::NoSuchDay;
}

pub enum Place {}

impl Limited for Place {
    ghost LARGEST = { places - 1 };

    const LARGEST: u32 = PLACES as u32 - 1;

    ghost REFUSAL = { NoSuchPlace };

    const REFUSAL: Refusal = Refusal::NoSuchPlace;
}

/// The number, or its kind's refusal where it is above the largest.
pub fn within<L: Limited>(n: u32) -> Result<u32, Refusal>
    ensures { result ≡ unless ((L.REFUSAL, nat_lt L.LARGEST n) ∷ []) n }
{
    if n <= L::LARGEST {
        Ok(n)
    } else {
        Err(L::REFUSAL)
    }
}

/// Whether the place draws; every other place feeds.
pub fn is_drawing(place: u8) -> bool
    ensures { result ≡ nat_lt place drawing }
{
    usize::from(place) < DRAWING
}
