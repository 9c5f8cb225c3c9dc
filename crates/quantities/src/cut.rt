//! The running cut: an amount divided over weights in order, with nothing lost to rounding.
ghost use Rattle.std.specs.Prelude.{◌≡◌, ◌*◌, ◌/◌};
ghost use Rattle.quantities.specs.Cut.{CutLaws};

/// What the weights so far have of the amount, rounded down; 0 where the whole is 0. A running cut by
/// it is fair: each part is its exact proportion, rounded down or up, and the parts add up.
#[tactic(auto, using(crate::proofs::Parts::cut_laws))]
pub fn cut_up_to(amount: u64, weights: u64, whole: u64) -> u128
    ensures value { result ≡ amount * weights / whole }
    ensures laws { CutLaws }
{
    if whole == 0 {
        return 0;
    }
    // Most products fit 64 bits, and are then divided in 64 bits, which is less work.
    match amount.checked_mul(weights) {
        Some(product) => u128::from(product / whole),
        None => u128::from(amount) * u128::from(weights) / u128::from(whole),
    }
}
