//! The away prices of six legs.
ghost use Rattle.std.specs.Prelude.{◌≡◌};
ghost use Rattle.terms.specs.Refusals.{answered};
ghost use Rattle.quotes.specs.Sheets.{away_refusal};
ghost use Rattle.leg_orders.specs.Books.{away_prices};

use quotes::top::{AwayPrices, set_away};
use terms::refusal::Refusal;
use terms::side::LegSide;
use terms::strategy::MAX_LEGS;

pub(crate) fn put_away(
    away: &mut [AwayPrices; MAX_LEGS],
    at: LegSide,
    price: u32,
) -> Result<(), Refusal>
    ensures answer { result ≡ answered (away_refusal at.leg price) tt }
    ensures after { away.new ≡ away_prices away.old at.leg at.side price }
{
    let prices = *away.get(at.leg).ok_or(Refusal::QuoteRange)?;
    away[at.leg] = set_away(prices, at, price)?;
    Ok(())
}
