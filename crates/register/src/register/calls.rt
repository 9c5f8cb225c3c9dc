//! The calls that fill a register. A refused call changes nothing.
ghost use Rattle.std.specs.Prelude.{◌≡◌, ◌<◌, ◌↔◌, IsOk, IfOk, IfErr};
ghost use Rattle.quantities.specs.Limits.{places};
ghost use Rattle.register.specs.Calls.{answer, empty_rows, row_of, rows_of, with_entry};
ghost use Rattle.register.specs.Effects.{Enters, TakesEffect};
ghost use Rattle.register.specs.Rows.{entries, most_share};

use crate::entry::Entry;
use crate::register::Register;
use crate::row::Row;
use quantities::limits::{Day, PLACES, Place, WHOLE_SHARE, is_drawing, within};
use quantities::refusal::Refusal;

// The largest share that a place may have.
fn most_share(place: u8) -> u32
    ensures { result ≡ most_share place }
{
    if is_drawing(place) { WHOLE_SHARE } else { 0 }
}

impl Register {
    /// All rows are empty.
    pub fn new() -> Register
        ensures { rows_of result ≡ empty_rows }
    {
        Register {
            rows: [Row::new(); PLACES],
        }
    }

    pub(crate) fn row(&self, place: u8) -> Result<&Row, Refusal>
        ensures low { IsOk result ↔ (place < places) }
        ensures items { IfOk result (λ row. entries row.now ≡ row_of (rows_of self.now) place) }
        ensures refusal { IfErr result (λ refusal. refusal ≡ Refusal.NoSuchPlace) }
    {
        within::<Place>(u32::from(place))?;
        Ok(&self.rows[usize::from(place)])
    }

    // The first refusal that applies to an entry. Place and entry come apart at once here: the place
    // finds the row, and the entry goes into it.
    fn test(&self, place: u8, entry: Entry) -> Result<(), Refusal>
        ensures { result ≡ answer (rows_of self.now) place entry }
    {
        let row = self.row(place)?;
        within::<Day>(u32::from(entry.day()))?;
        // The limit is that of the place, and not of a kind of number.
        if entry.share().is_some_and(|share| share > most_share(place)) {
            return Err(Refusal::ShareNotAllowed);
        }
        if entry.lacks_room(row.count()) {
            return Err(Refusal::RowFull);
        }
        if !row.standing().takes(entry) {
            return Err(Refusal::DoesNotFollow);
        }
        Ok(())
    }

    // One entry more, in the row itself.
    fn put(&mut self, place: u8, entry: Entry)
        requires { answer (rows_of self.old) place entry ≡ Ok tt }
        ensures rows { rows_of self.new ≡ with_entry (rows_of self.old) place entry }
        ensures effect { TakesEffect entry (row_of (rows_of self.old) place) (row_of (rows_of self.new) place) }
    {
        // In two steps: a row that is lent straight out of the register gets no proof.
        let rows = &mut self.rows;
        rows[usize::from(place)].push(entry);
    }

    /// Any call, with its entry as a value.
    pub fn enter(&mut self, place: u8, entry: Entry) -> Result<(), Refusal>
        ensures { Enters self.old self.new place entry result }
    {
        self.test(place, entry)?;
        self.put(place, entry);
        Ok(())
    }

    // The three calls, by the names that the rules give them.

    /// A place takes part from a day on, with a share.
    pub fn start(&mut self, place: u8, day: u16, share: u32) -> Result<(), Refusal>
        ensures { Enters self.old self.new place (Entry.Start day share) result }
    {
        self.enter(place, Entry::Start { day, share })
    }

    /// It has another share from a day on.
    pub fn change(&mut self, place: u8, day: u16, share: u32) -> Result<(), Refusal>
        ensures { Enters self.old self.new place (Entry.Change day share) result }
    {
        self.enter(place, Entry::Change { day, share })
    }

    /// It takes part up to a day, that day included.
    pub fn end(&mut self, place: u8, day: u16) -> Result<(), Refusal>
        ensures { Enters self.old self.new place (Entry.End day) result }
    {
        self.enter(place, Entry::End { day })
    }
}
