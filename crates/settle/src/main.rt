//! Settles a day's profiles in two communities, one on the other, and prints what it does as it works.
#![tactic(auto)]

ghost use Rattle.settle.specs.Filled.{lower_members, upper_members};
ghost use Rattle.std.specs.Prelude.{◌≡◌, IfOk};

mod day;
mod membership;
mod pile;
mod profile;
mod report;
mod roll;
mod summary;
mod table;

use crate::day::DaySums;
use crate::membership::HALF;
use crate::pile::Pile;
use crate::profile::Step;
use std::process::ExitCode;
use std::{env, fs};

// The file with the profiles, unless the first argument names another.
const PROFILES: &str = "profiles.csv";

// The day of the profiles: 1 November 2023.
const DAY: u16 = 1_400;

// Fills the registers of both communities and takes their members on the day of the profiles.
#[tactic(auto, using(crate::proofs::Rolls::filled))]
fn members_of_day(rt: &impl Print) -> anyhow::Result<Pile>
    ensures { IfOk result (λ pile. (pile.lower ≡ lower_members) × (pile.upper ≡ upper_members)) }
{
    println!(rt; "\nThe register of the lower community, static key")?;
    let lower = membership::fill(rt, &membership::lower_calls())?;
    roll::print_members(rt, &lower, HALF)?;
    roll::print_members(rt, &lower, DAY)?;
    println!(rt; "The register of the upper community, dynamic key")?;
    let upper = membership::fill(rt, &membership::upper_calls())?;
    roll::print_members(rt, &upper, DAY)?;
    Ok(Pile::on_day(&lower, &upper, DAY))
}

fn settle_day(rt: &impl Print, pile: &Pile, steps: &[Step]) -> anyhow::Result<DaySums> {
    let mut sums = DaySums::new();
    for step in steps {
        let levels = sums.work(pile, &step.readings)?;
        report::print_step(rt, pile, step, &levels)?;
    }
    Ok(sums)
}

fn run(rt: &HostRuntime) -> anyhow::Result<()> {
    let argument = env::args(rt)?.nth(1);
    let path = argument.as_deref().unwrap_or(PROFILES);
    println!(rt; "Reading the profiles from {path}")?;
    let text = fs::read_to_string(rt, path)?;
    let steps = profile::parse(rt.alloc(), &text)?;
    report::print_task(rt, steps.len())?;
    let pile = members_of_day(rt)?;
    let sums = settle_day(rt, &pile, &steps)?;
    summary::print_day(rt, &sums, steps.len())
}

// An error that `main` returned would be printed in other words.
fn main(rt: HostRuntime) -> ExitCode {
    match run(&rt) {
        Ok(()) => ExitCode::SUCCESS,
        Err(fault) => {
            let _ = eprintln!(rt; "settle: {fault}");
            ExitCode::FAILURE
        }
    }
}
