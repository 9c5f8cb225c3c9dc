//! The register of a community: a row of entries for each place.
ghost use Rattle.std.specs.Prelude.{◌≡◌, ℕ, ◌<◌, true, length, slice_index_or};
ghost use Rattle.quantities.specs.Limits.{places};
ghost use Rattle.register.specs.Rows.{entries, lawful};
ghost use Rattle.register.specs.declared.row.Row.{Row as RowT};

use crate::row::Row;
use quantities::limits::PLACES;

pub mod calls;
pub mod questions;

/// Whatever was entered, each row's entries stand in lawful order. A derived `==` or `Debug` would read
/// what stands behind them, so there is none.
#[derive(Clone, Copy)]
pub struct Register {
    rows: [Row; PLACES],
    ghost whole: { length rows ≡ places },
    ghost order: { (place : ℕ) (d : RowT) → place < length rows → lawful place (entries (slice_index_or rows place d)) ≡ true },
}
