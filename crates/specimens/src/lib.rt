//! Worked examples, proved of the definitions that the contracts speak of.
#![tactic(auto)]

ghost use Rattle.specimens.specs.Specimens.{Specimens};

/// Every worked example comes out as it should.
pub fn specimens_hold()
    ensures { Specimens }
{}
