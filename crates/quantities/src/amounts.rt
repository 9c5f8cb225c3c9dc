//! Amounts in watt hours, added up.
ghost use Rattle.std.specs.Prelude.{◌≡◌, ◌<◌, ◌^◌, length, sum};

/// What these amounts are together. So many of them fit 64 bits.
pub fn together(amounts: &[u32]) -> u64
    requires { length amounts.now < 2 ^ 32 }
    ensures { result ≡ sum amounts.now }
{
    amounts.iter().map(|&amount| u64::from(amount)).sum()
}
