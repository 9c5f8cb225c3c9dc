//! The entries of a register, and how one follows on another.
ghost use Rattle.register.specs.Effects.{brings};
ghost use Rattle.register.specs.Rows.{after, day_of, follows, full};
ghost use Rattle.register.specs.Shares.{ended, set_by};
ghost use Rattle.std.specs.Prelude.{◌≡◌, [], ◌∷◌};

// The most entries that a row can have.
pub(crate) const ENTRIES: usize = 16;

/// Each entry counts from a day on: a start or change from its own day, an end from the day after.
#[derive(Clone, Copy, Debug, PartialEq, Eq)]
pub enum Entry {
    Start { day: u16, share: u32 },
    Change { day: u16, share: u32 },
    End { day: u16 },
}

/// How a row stands by its last entry: empty, open since a day, or ended on a day. A type of its own,
/// since the order of a row's entries is defined by it.
#[derive(Clone, Copy, Debug, PartialEq, Eq)]
pub enum Standing {
    Empty,
    Open(u16),
    Ended(u16),
}

impl Standing {
    // Whether an entry may come next.
    pub(crate) fn takes(self, next: Entry) -> bool
        ensures { result ≡ follows self next }
    {
        match (self, next) {
            (Standing::Empty, Entry::Start { .. }) => true,
            (Standing::Ended(last), Entry::Start { day, .. }) if last < day => true,
            (Standing::Open(last), Entry::Change { day, .. }) if last < day => true,
            (Standing::Open(last), Entry::End { day }) if last <= day => true,
            _ => false,
        }
    }
}

impl Entry {
    pub(crate) fn day(self) -> u16
        ensures { result ≡ day_of self }
    {
        match self {
            Entry::Start { day, .. } | Entry::Change { day, .. } | Entry::End { day } => day,
        }
    }

    // The share that an entry brings; an end brings none.
    pub(crate) fn share(self) -> Option<u32>
        ensures { result ≡ brings self }
    {
        match self {
            Entry::Start { share, .. } | Entry::Change { share, .. } => Some(share),
            Entry::End { .. } => None,
        }
    }

    // How a row stands that ends with this entry.
    pub(crate) fn leaves(self) -> Standing
        ensures { result ≡ after self }
    {
        match self {
            Entry::Start { day, .. } | Entry::Change { day, .. } => Standing::Open(day),
            Entry::End { day } => Standing::Ended(day),
        }
    }

    // Whether a row of so many entries has no room for this one: the last place is kept for an end.
    pub(crate) fn lacks_room(self, count: usize) -> bool
        ensures { result ≡ full self count }
    {
        match self {
            Entry::Start { .. } | Entry::Change { .. } => count >= ENTRIES - 1,
            Entry::End { .. } => false,
        }
    }

    // The share of a start or change dated on the day or earlier.
    pub(crate) fn share_by(self, day: u16) -> Option<u32>
        ensures { result ≡ set_by day self }
    {
        self.share().filter(|_| self.day() <= day)
    }

    pub(crate) fn ends_before(self, day: u16) -> bool
        ensures { result ≡ ended day (self ∷ []) }
    {
        matches!(self, Entry::End { day: last } if last < day)
    }
}
