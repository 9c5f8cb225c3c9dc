//! The calls that fill the registers of the two communities.
ghost use Rattle.register.specs.Calls.{empty_rows, rows_of};
ghost use Rattle.register.specs.Effects.{Enters};
ghost use Rattle.settle.specs.Filled.{entered, lower_members, members_by, upper_members};
ghost use Rattle.std.specs.Prelude.{◌≡◌, IfOk};

use crate::roll::print_call;
use crate::table::{Percent, PointName};
use quantities::limits::DRAWING;
use quantities::refusal::Refusal;
use register::entry::Entry;
use register::register::Register;
use std::fmt;

/// An entry for a place, accepted or not.
#[derive(Clone, Copy, Debug, PartialEq, Eq)]
pub struct Call {
    pub place: u8,
    pub entry: Entry,
}

// A cast, since a constant cannot call `try_from`.
const G1: u8 = DRAWING as u8;

const G2: u8 = G1 + 1;

// 1 January 2023, and the last day and the day after of its first half.
const OPENING: u16 = 1_096;

pub const HALF: u16 = 1_276;

const SECOND_HALF: u16 = HALF + 1;

impl Call {
    fn new(place: u8, entry: Entry) -> Call
        ensures { result ≡ record { place = place; entry = entry } }
    {
        Call { place, entry }
    }

    fn perform(self, register: &mut Register) -> Result<(), Refusal>
        ensures { Enters register.old register.new self.place self.entry result }
    {
        register.enter(self.place, self.entry)
    }
}

impl fmt::Display for Call {
    fn fmt<W: fmt::Write>(&self, f: &mut fmt::Formatter<W>) -> fmt::Result {
        let point = PointName(usize::from(self.place));
        match self.entry {
            Entry::Start { day, share } => {
                write!(f, "{point} starts on day {day} with {}", Percent(share))
            }
            Entry::Change { day, share } => {
                write!(f, "{point} changes on day {day} to {}", Percent(share))
            }
            Entry::End { day } => write!(f, "{point} ends on day {day}"),
        }
    }
}

fn start(day: u16, share: u32) -> Entry
    ensures { result ≡ Entry.Start day share }
{
    Entry::Start { day, share }
}

/// n6 cannot come back on its last day.
#[tactic(auto, using(crate::proofs::Rolls::lower_members_lem))]
pub fn lower_calls() -> [Call; 8]
    ensures { members_by result ≡ lower_members }
{
    [
        Call::new(0, start(OPENING, 500_000)),
        Call::new(1, start(OPENING, 300_000)),
        Call::new(5, start(OPENING, 300_000)),
        Call::new(G1, start(OPENING, 0)),
        Call::new(5, Entry::End { day: HALF }),
        Call::new(5, start(HALF, 200_000)),
        Call::new(
            0,
            Entry::Change {
                day: SECOND_HALF,
                share: 400_000,
            },
        ),
        Call::new(2, start(SECOND_HALF, 200_000)),
    ]
}

/// The key of the upper community looks at draws alone, so shares there are 0; at g2 no other is allowed.
#[tactic(auto, using(crate::proofs::Rolls::upper_members_lem))]
pub fn upper_calls() -> [Call; 5]
    ensures { members_by result ≡ upper_members }
{
    [
        Call::new(3, start(SECOND_HALF, 0)),
        Call::new(4, start(SECOND_HALF, 0)),
        Call::new(G1, start(SECOND_HALF, 0)),
        Call::new(G2, start(SECOND_HALF, 500_000)),
        Call::new(G2, start(SECOND_HALF, 0)),
    ]
}

/// A register after all of these calls, each printed with its answer.
pub fn fill(rt: &impl Print, calls: &[Call]) -> anyhow::Result<Register>
    ensures { IfOk result (λ register. rows_of register ≡ entered empty_rows calls.now) }
{
    let mut register = Register::new();
    for call in calls {
        let answer = call.perform(&mut register);
        print_call(rt, call, answer)?;
    }
    Ok(register)
}
