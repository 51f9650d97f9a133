//! Deviations and collar values.
ghost use Rattle.std.specs.Prelude.{◌≡◌, find, nat_le};
ghost use Rattle.derived.specs.Collars.{deviation, bands, collar_in, collar, CollarRule};

// A band of prices, up to its limit, and the collar value there.
#[derive(Clone, Copy)]
pub struct Band {
    limit: u32,
    amount: u32,
}

const BANDS: [Band; 7] = [
    Band {
        limit: 200,
        amount: 20,
    },
    Band {
        limit: 500,
        amount: 30,
    },
    Band {
        limit: 1_000,
        amount: 40,
    },
    Band {
        limit: 2_000,
        amount: 70,
    },
    Band {
        limit: 5_000,
        amount: 90,
    },
    Band {
        limit: 10_000,
        amount: 140,
    },
    Band {
        limit: u32::MAX,
        amount: 190,
    },
];

// How far an own price may lie behind an away price.
pub fn deviation(away: u32) -> u32
    ensures { result ≡ deviation away }
{
    (away / 20).max(5)
}

// The first band that reaches the price.
fn band_for(bands: &[Band], price: u32) -> Option<Band>
    ensures { result ≡ find (λ band. nat_le price band.limit) bands.now }
{
    bands.iter().copied().find(|band| price <= band.limit)
}

fn amount_in(bands: &[Band], price: u32) -> u32
    ensures { result ≡ collar_in bands.now price }
{
    // the last band reaches every price, so no price comes to this 190
    band_for(bands, price).map_or(190, |band| band.amount)
}

fn amount_in_table(price: u32) -> u32
    ensures { result ≡ collar_in bands price }
{
    amount_in(&BANDS, price)
}

pub fn collar_value(price: u32) -> u32
    ensures value { result ≡ collar price }
    ensures rule { CollarRule price result }
{
    amount_in_table(price)
}
