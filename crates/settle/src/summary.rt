//! What is printed of the whole day.
ghost use Rattle.std.specs.Prelude.{◌≡◌, ◌^◌, ◌≤◌, ◌↔◌, sum, IfOk, IsErr};

use crate::day::{DaySums, SumsTooLarge};
use crate::profile::{DRAWERS, FEEDERS};
use crate::table::{Line, PointName, WattHours};
use itertools::izip;
use quantities::limits::{DRAWING, PLACES};
use std::io;

fn total(sums: &[u64]) -> Result<WattHours, SumsTooLarge>
    ensures value { IfOk result (λ total. total.0 ≡ sum sums.now) }
    ensures too_large { IsErr result ↔ (2 ^ 64 ≤ sum sums.now) }
{
    sums.iter()
        .try_fold(0u64, |total, &sum| total.checked_add(sum))
        .map(WattHours)
        .ok_or(SumsTooLarge)
}

fn print_headings(rt: &impl Print, side: &str, remainder: &str) -> io::Result<()> {
    let headings = ["Metered Wh", "Lower Wh", "Upper Wh", remainder];
    println!(rt; "{}", Line::new(side, &headings))
}

// The lines of points by their sums, from a first place on, and their totals.
fn print_points(rt: &impl Print, first: usize, columns: [&[u64]; 4]) -> anyhow::Result<()> {
    let [metered, lower, upper, remainder] = columns;
    let rows = izip!(first.., metered, lower, upper, remainder);
    for (place, &metered, &lower, &upper, &remainder) in rows {
        let cells = [metered, lower, upper, remainder].map(WattHours);
        println!(rt; "{}", Line::new(PointName(place), &cells))?;
    }
    let totals = [
        total(metered)?,
        total(lower)?,
        total(upper)?,
        total(remainder)?,
    ];
    println!(rt; "{}", Line::new("Together", &totals))?;
    Ok(())
}

// What a community settled, from both sides.
fn print_balance(rt: &impl Print, name: &str, settled: &[u64; PLACES]) -> anyhow::Result<()> {
    let (drawing, feeding) = settled.split_at(DRAWING);
    let drawn = total(drawing)?;
    let fed = total(feeding)?;
    println!(rt;
        "{name} community: the drawing members take {drawn} Wh, the feeding members give {fed} Wh"
    )?;
    Ok(())
}

pub fn print_day(rt: &impl Print, sums: &DaySums, steps: usize) -> anyhow::Result<()> {
    let columns = [&sums.metered, &sums.lower, &sums.upper, &sums.remainder];
    println!(rt; "\nThe sums of {steps} quarter hours")?;
    print_headings(rt, "Drawing", "Supplier Wh")?;
    print_points(rt, 0, columns.map(|sums| &sums[..DRAWERS]))?;
    print_headings(rt, "Feeding", "Surplus Wh")?;
    print_points(
        rt,
        DRAWING,
        columns.map(|sums| &sums[DRAWING..DRAWING + FEEDERS]),
    )?;
    println!(rt)?;
    print_balance(rt, "Lower", &sums.lower)?;
    print_balance(rt, "Upper", &sums.upper)?;
    // What `DaySums` states of every day.
    println!(rt; "The sums balance: no watt hour was made or lost.")?;
    Ok(())
}
