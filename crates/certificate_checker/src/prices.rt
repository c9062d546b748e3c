ghost use Rattle.std.specs.Prelude.{◌≡◌, ◌*◌, ◌^◌, ◌<◌, length};
ghost use Rattle.certificate_checker.specs.Prices.{priced_at};

/// A price that counts for its stamp alone: so the prices of one node need no clearing for the next.
#[derive(Clone, Copy, Drop)]
pub struct Priced {
    /// How long the text is behind the tag of the node.
    pub stamp: usize,
    /// In the units of the gains, times the node's scale.
    pub price: u128,
}

/// A weight or a capacity, times a multiplier.
pub(crate) fn product(multiplier: u64, weight: u64) -> u128
    requires { weight < 2 ^ 32 }
    ensures value { result ≡ multiplier * weight }
    ensures small { result < 2 ^ 96 }
{
    u128::from(multiplier) * u128::from(weight)
}

/// The price of a variable that counts for a stamp.
pub(crate) fn price_now(prices: &[Priced], stamp: usize, number: usize) -> u128
    requires { number < length prices.now }
    ensures { result ≡ priced_at stamp prices.now number }
{
    let found = prices[number];
    if found.stamp == stamp { found.price } else { 0 }
}
