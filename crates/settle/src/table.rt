//! What the tables show: amounts, shares, names of metering points, and aligned lines of these.
ghost use Rattle.std.specs.Prelude.{◌≡◌};

use quantities::limits::DRAWING;
use std::fmt;

/// An amount of energy, with a comma before each group of three digits. It stands at the right end of
/// a width.
#[derive(Clone, Copy, Debug, PartialEq, Eq)]
pub struct WattHours(pub u64);

impl fmt::Display for WattHours {
    fn fmt<W: fmt::Write>(&self, f: &mut fmt::Formatter<W>) -> fmt::Result {
        let width = f.width().unwrap_or(0);
        write_grouped(f, self.0, width)
    }
}

fn write_grouped<W: fmt::Write>(
    f: &mut fmt::Formatter<W>,
    amount: u64,
    width: usize,
) -> fmt::Result {
    if amount < 1_000 {
        return write!(f, "{amount:>width$}");
    }
    // The last group takes four columns of the width.
    write_grouped(f, amount / 1_000, width.saturating_sub(4))?;
    write!(f, ",{:03}", amount % 1_000)
}

/// A share, which counts ten-thousandths of a percent.
#[derive(Clone, Copy, Debug, PartialEq, Eq)]
pub struct Percent(pub u32);

impl fmt::Display for Percent {
    fn fmt<W: fmt::Write>(&self, f: &mut fmt::Formatter<W>) -> fmt::Result {
        let whole = self.0 / 10_000;
        let parts = self.0 % 10_000;
        if parts == 0 {
            write!(f, "{whole} %")
        } else {
            write!(f, "{whole}.{parts:04} %")
        }
    }
}

/// The name of the metering point at a place: n1, n2 and so on draw, g1, g2 and so on feed. It stands
/// at the left end of a width.
#[derive(Clone, Copy, Debug, PartialEq, Eq)]
pub struct PointName(pub usize);

impl fmt::Display for PointName {
    fn fmt<W: fmt::Write>(&self, f: &mut fmt::Formatter<W>) -> fmt::Result {
        let (letter, number) = if self.0 < DRAWING {
            ('n', self.0 + 1)
        } else {
            ('g', self.0 - DRAWING + 1)
        };
        // The letter takes one column of the width.
        let width = f.width().unwrap_or(0).saturating_sub(1);
        write!(f, "{letter}{number:<width$}")
    }
}

/// The value, or a dash where there is none.
#[derive(Clone, Copy, Debug, PartialEq, Eq)]
pub struct OrDash<T>(pub Option<T>);

impl<T: fmt::Display> fmt::Display for OrDash<T> {
    fn fmt<W: fmt::Write>(&self, f: &mut fmt::Formatter<W>) -> fmt::Result {
        match &self.0 {
            Some(value) => value.fmt(f),
            None => f.pad("-"),
        }
    }
}

/// A line of a table: the label on the left, the cells at the right ends of their columns.
#[derive(Clone, Copy, Debug, PartialEq, Eq)]
pub struct Line<'a, L, C> {
    pub label: L,
    pub cells: &'a [C],
}

impl<'a, L, C> Line<'a, L, C> {
    pub fn new(label: L, cells: &'a [C]) -> Line<'a, L, C>
        ensures label { result.label ≡ label }
        ensures cells { result.cells.now ≡ cells.now }
    {
        Line { label, cells }
    }
}

impl<L: fmt::Display, C: fmt::Display> fmt::Display for Line<'_, L, C> {
    fn fmt<W: fmt::Write>(&self, f: &mut fmt::Formatter<W>) -> fmt::Result {
        write!(f, "  {:<16}", self.label)?;
        for cell in self.cells {
            write!(f, "{cell:>15}")?;
        }
        Ok(())
    }
}
