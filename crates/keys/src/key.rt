//! The key's interface and the two keys in use.
ghost use Rattle.std.specs.Prelude.{◌≡◌, ℕ};
ghost use Rattle.keys.specs.Keys.{KeyLaw, dynamic, static};
ghost use Rattle.keys.specs.KeyLaws.{dynamic_law, static_law};
ghost use Rattle.keys.specs.declared.sums.Sums.{Sums};

use crate::sums::{Division, Sums};
use quantities::limits::WHOLE_SHARE;

/// A key answers how much of the generation is promised to the members up to a place, from the
/// running sums up to there.
pub trait Key {
    ghost promised: { Self → ℕ → Sums → Sums → ℕ };

    // Above the function, so that clauses and other members may cite it, as they may not cite a law below.
    ghost lawful: { (k : Self) → KeyLaw (promised k) };

    fn promise(&self, division: Division, running: Sums) -> u64
        ensures { result ≡ promised self.now division.generation running division.whole };
}

/// Divides by the shares: each member has its share of the generation.
#[derive(Clone, Copy, Debug, PartialEq, Eq)]
pub struct Static;

impl Key for Static {
    ghost promised = { λ _. static };

    ghost lawful = { λ _. static_law };

    fn promise(&self, division: Division, running: Sums) -> u64 {
        if !division.in_range(running) {
            return 0;
        }
        let Division { generation, whole } = division;
        let divisor = whole.share.max(u64::from(WHOLE_SHARE));
        generation * running.share / divisor
    }
}

/// Divides by the draws: each member has its part of what can be used.
#[derive(Clone, Copy, Debug, PartialEq, Eq)]
pub struct Dynamic;

impl Key for Dynamic {
    ghost promised = { λ _. dynamic };

    ghost lawful = { λ _. dynamic_law };

    fn promise(&self, division: Division, running: Sums) -> u64 {
        let Division { generation, whole } = division;
        if !division.in_range(running) || whole.draw == 0 {
            return 0;
        }
        let usable = generation.min(whole.draw);
        usable * running.draw / whole.draw
    }
}
