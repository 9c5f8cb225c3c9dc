//! What is printed of the registers: the calls that fill them, and the members of a day.
ghost use Rattle.register.specs.Calls.{rows_of};
ghost use Rattle.register.specs.Shares.{total_answer};
ghost use Rattle.settle.specs.Roll.{MembersOn};
ghost use Rattle.std.specs.Prelude.{◌≡◌, Err, IfErr, IfOk};

use crate::membership::Call;
use crate::table::{Percent, PointName};
use itertools::izip;
use quantities::limits::{DRAWING, PLACES, WHOLE_SHARE};
use quantities::refusal::Refusal;
use register::register::Register;
use std::{fmt, io};

pub fn print_call(rt: &impl Print, call: &Call, answer: Result<(), Refusal>) -> io::Result<()> {
    match answer {
        Ok(()) => println!(rt; "  {call}: accepted"),
        Err(refusal) => println!(rt; "  {call}: {refusal}"),
    }
}

// A member: its name, with its share where it draws, and what that is corrected to if the day's total
// is above the whole.
#[derive(Clone, Copy, Debug, PartialEq, Eq)]
struct Member {
    place: usize,
    share: u32,
    corrected: Option<u32>,
}

impl fmt::Display for Member {
    fn fmt<W: fmt::Write>(&self, f: &mut fmt::Formatter<W>) -> fmt::Result {
        write!(f, "{}", PointName(self.place))?;
        if self.place < DRAWING {
            write!(f, " {}", Percent(self.share))?;
            if let Some(corrected) = self.corrected {
                write!(f, " (corrected {})", Percent(corrected))?;
            }
        }
        Ok(())
    }
}

// The members of a day by their shares, these as they count by the day's total, and that total: the
// register's own answers, from which the line is written.
#[derive(Clone, Copy, Debug, PartialEq, Eq)]
struct Members {
    shares: [Option<u32>; PLACES],
    corrected: [Option<u32>; PLACES],
    total: u32,
}

impl Members {
    fn on_day(register: &Register, day: u16) -> Result<Members, Refusal>
        ensures told { IfOk result (λ members. MembersOn (rows_of register.now) day members) }
        ensures refusal { IfErr result (λ refusal. total_answer (rows_of register.now) day ≡ Err refusal) }
    {
        let total = register.total(day)?;
        let mut corrected = [None; PLACES];
        // By place, since each answer may refuse. The count of places fits a place's type.
        for place in 0..PLACES as u8 {
            corrected[usize::from(place)] = register.corrected(place, day)?;
        }
        Ok(Members {
            shares: register.shares(day),
            corrected,
            total,
        })
    }
}

impl fmt::Display for Members {
    fn fmt<W: fmt::Write>(&self, f: &mut fmt::Formatter<W>) -> fmt::Result {
        let scaled = self.total > WHOLE_SHARE;
        let rows = izip!(&self.shares, &self.corrected).enumerate();
        let members = rows.filter_map(|(place, (share, corrected))| {
            share.map(|share| Member {
                place,
                share,
                corrected: corrected.filter(|_| scaled),
            })
        });
        f.write_joined(members, ", ")
    }
}

pub fn print_members(rt: &impl Print, register: &Register, day: u16) -> anyhow::Result<()> {
    let members = Members::on_day(register, day)?;
    println!(rt;
        "  On day {day}: {members}; together {}",
        Percent(members.total)
    )?;
    Ok(())
}
