//! One row of the register: a place's entries, in order.
ghost use Rattle.std.specs.Prelude.{◌≤◌, length};

use crate::entry::{ENTRIES, Entry, Standing};

/// The first `len` items are its entries. It holds them itself, since a register is copied and
/// allocates nothing. A derived `==` or `Debug` would read what stands behind them.
#[derive(Clone, Copy)]
pub struct Row {
    items: [Entry; ENTRIES],
    len: usize,
    ghost few: { len ≤ length items },
}

impl Row {
    ghost use Rattle.register.specs.Rows.{entries, stands};
    ghost use Rattle.register.specs.Shares.{share_on};
    ghost use Rattle.std.specs.Prelude.{◌≡◌, ◌<◌, [], ◌∷◌, ◌++◌};

    pub(crate) fn new() -> Row
        ensures { entries result ≡ [] }
    {
        Row {
            items: [Entry::End { day: 0 }; ENTRIES],
            len: 0,
        }
    }

    fn entries(&self) -> &[Entry]
        ensures { result.now ≡ entries self.now }
    {
        &self.items[..self.len]
    }

    pub(crate) fn count(&self) -> usize
        ensures { result ≡ length (entries self.now) }
    {
        self.entries().len()
    }

    #[tactic(auto, using(crate::proofs::Order::stands_by_last))]
    pub(crate) fn standing(&self) -> Standing
        ensures { result ≡ stands (entries self.now) }
    {
        self.entries()
            .last()
            .map_or(Standing::Empty, |entry| entry.leaves())
    }

    pub(crate) fn push(&mut self, entry: Entry)
        requires { length (entries self.old) < ENTRIES }
        ensures { entries self.new ≡ entries self.old ++ entry ∷ [] }
    {
        self.items[self.len] = entry;
        self.len += 1;
    }

    // The share on a day, by the last start or change dated so early; none where an end came between.
    pub(crate) fn share_on(&self, day: u16) -> Option<u32>
        ensures { result ≡ share_on (entries self.now) day }
    {
        let mut ended = false;
        for entry in self.entries().iter().rev() {
            if let Some(share) = entry.share_by(day) {
                return (!ended).then_some(share);
            }
            ended = entry.ends_before(day);
        }
        None
    }
}
