//! The claim about one place.

ghost use Rattle.std.specs.Prelude.{◌≡◌, ◌<◌, ◌↔◌, length, IsTrue, Some};
ghost use Rattle.hls_check_tables.specs.Certificates.{price_at, is_closed, claim_data};
ghost use Rattle.hls_check.specs.Rows.{claimed_prices};

use hls_check_tables::Claim;

/// Whether place `p` is in the closed set.
#[inline(always)]
pub fn is_closed(closed: &[bool], p: usize) -> bool
    requires { p < length closed.now }
    ensures { result ≡ is_closed closed.now p }
{
    closed[p]
}

/// Whether this is the price of place `p`.
pub fn has_price(prices: &[Option<u64>], p: usize, price: u64) -> bool
    requires { p < length prices.now }
    ensures { IsTrue result ↔ (price_at prices.now p ≡ Some price) }
{
    prices[p] == Some(price)
}

/// The price of place `p`, if it has one. In a closed set the price is 0.
#[inline(always)]
#[tactic(auto, using(crate::proofs::ClosedPrices::price_of_closed))]
pub fn price_of(claim: &Claim, p: usize) -> Option<u64>
    requires { p < length (claimed_prices (claim_data claim.now)) }
    ensures { result ≡ price_at (claimed_prices (claim_data claim.now)) p }
{
    match claim {
        Claim::Cut { prices, .. } => prices[p],
        Claim::NoCut { closed } => {
            if is_closed(closed.as_slice(), p) {
                Some(0)
            } else {
                None
            }
        }
    }
}
