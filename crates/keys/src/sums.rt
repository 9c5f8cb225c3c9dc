//! What a key divides, and by what.
ghost use Rattle.keys.specs.Keys.{in_range};
ghost use Rattle.std.specs.Prelude.{◌≡◌};

use quantities::limits::{DRAWING, FEEDING, READING_LIMIT, WHOLE_SHARE};

// The most that the feeding places feed, and that the drawing places have in shares and draw. These
// are casts, since a constant cannot call `from`.
const GENERATION_LIMIT: u64 = FEEDING as u64 * READING_LIMIT as u64;

const WHOLE_SHARE_LIMIT: u64 = DRAWING as u64 * WHOLE_SHARE as u64;

const WHOLE_DRAW_LIMIT: u64 = DRAWING as u64 * READING_LIMIT as u64;

/// The sums of the shares and of the draws over the members at drawing places, running up to some
/// place, or whole.
#[derive(Clone, Copy, Debug, PartialEq, Eq, Default)]
pub struct Sums {
    pub share: u64,
    pub draw: u64,
}

/// What the members feed together, and the whole sums that it is divided by.
#[derive(Clone, Copy, Debug, PartialEq, Eq)]
pub struct Division {
    pub generation: u64,
    pub whole: Sums,
}

impl Division {
    // Whether a community can have these sums; for others the keys promise nothing.
    pub(crate) fn in_range(self, running: Sums) -> bool
        ensures { result ≡ in_range self.generation running self.whole }
    {
        running.share <= self.whole.share
            && running.draw <= self.whole.draw
            && self.generation <= GENERATION_LIMIT
            && self.whole.share <= WHOLE_SHARE_LIMIT
            && self.whole.draw <= WHOLE_DRAW_LIMIT
    }
}
