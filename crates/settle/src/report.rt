//! What is printed of the task and of each step.
use crate::pile::{Level, Levels, Pile};
use crate::profile::{DRAWERS, FEEDERS, Step};
use crate::table::{Line, OrDash, PointName, WattHours};
use itertools::izip;
use quantities::amounts::together;
use quantities::limits::{DRAWING, PLACES};
use std::io;

pub fn print_task(rt: &impl Print, steps: usize) -> io::Result<()> {
    println!(rt;
        "{steps} quarter hours of {DRAWERS} drawing and {FEEDERS} feeding metering points, in watt hours (Wh)"
    )
}

// The members of a community: each one's reading, what the communities below have left of it, and
// what becomes of that.
fn print_level(
    rt: &impl Print,
    name: &str,
    readings: &[u32; PLACES],
    level: &Level,
) -> io::Result<()> {
    let headings = [
        "Reading Wh",
        "Left below Wh",
        "Entitlement Wh",
        "Settled Wh",
        "Remainder Wh",
    ];
    println!(rt; "{}", Line::new(name, &headings))?;
    let Level { hour, settlement } = level;
    let rows = izip!(
        readings,
        &hour.points,
        &settlement.settled,
        &settlement.remainder
    );
    for (place, (&reading, point, &settled, &remainder)) in rows.enumerate() {
        if point.share.is_some() {
            // Only places that draw are entitled to anything.
            let entitlement = settlement.entitled.get(place).copied();
            let cells = [
                Some(u64::from(reading)),
                Some(u64::from(point.left)),
                entitlement,
                Some(u64::from(settled)),
                Some(u64::from(remainder)),
            ]
            .map(|amount| OrDash(amount.map(WattHours)));
            println!(rt; "{}", Line::new(PointName(place), &cells))?;
        }
    }
    Ok(())
}

/// What a step comes to in both communities, and what is then left with their members.
pub fn print_step(rt: &impl Print, pile: &Pile, step: &Step, levels: &Levels) -> io::Result<()> {
    let Step { number, readings } = step;
    println!(rt; "\nStep {number}")?;
    print_level(rt, "Lower community", readings, &levels.lower)?;
    print_level(rt, "Upper community", readings, &levels.upper)?;
    let left = pile.left_with_each(&levels.upper.settlement.remainder);
    let (drawing, feeding) = left.split_at(DRAWING);
    let supplied = WattHours(together(drawing));
    let surplus = WattHours(together(feeding));
    println!(rt; "  The supplier delivers {supplied} Wh; surplus {surplus} Wh")
}
