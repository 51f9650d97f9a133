//! Prices strategies on a quote sheet, and shows on which quotes each price rests.
#![tactic(auto)]

use derived::prices::derived_prices;
use derived::used::{is_own, used_price};
use market::leg_market::MarketView;
use market::sheet::QuoteSheet;
use quotes::level::Level;
use std::io;
use terms::leg::{Leg, OptionKind};
use terms::refusal::Refusal;
use terms::side::{LegSide, Side};
use terms::strategy::Strategy;

// What is set on one side of a leg: an own level or an away price.
#[derive(Clone, Copy)]
struct Quote<T> {
    at: LegSide,
    value: T,
}

fn call(side: Side, ratio: u32) -> Leg {
    Leg {
        kind: OptionKind::Call,
        side,
        ratio,
    }
}

fn own(at: LegSide, price: u32, customer: u32, other: u32) -> Quote<Level> {
    Quote {
        at,
        value: Level {
            price,
            customer,
            other,
        },
    }
}

// A yes or no, where `bool` would be written as true or false.
fn yes_no(answer: bool) -> &'static str {
    if answer { "yes" } else { "no" }
}

fn show_own(rt: &HostRuntime, level: Option<Level>) -> io::Result<()> {
    match level {
        Some(own) => print!(rt;
            "own {} ({} customer, {} other)",
            own.price, own.customer, own.other
        ),
        None => print!(rt; "own none"),
    }
}

fn show_away(rt: &HostRuntime, away: Option<u32>) -> io::Result<()> {
    match away {
        Some(price) => print!(rt; ", away {price}"),
        None => print!(rt; ", away none"),
    }
}

fn show_used(rt: &HostRuntime, sheet: &QuoteSheet, at: LegSide) -> io::Result<()> {
    match used_price(sheet, at) {
        Some(price) => println!(rt;
            ": used {price}, {}",
            if is_own(sheet, at) { "own" } else { "not own" }
        ),
        None => println!(rt; ": no used price"),
    }
}

fn show_side(rt: &HostRuntime, sheet: &QuoteSheet, at: LegSide) -> io::Result<()> {
    match at.side {
        Side::Buy => print!(rt; "    bid:   ")?,
        Side::Sell => print!(rt; "    offer: ")?,
    }
    show_own(rt, sheet.level(at, 0))?;
    show_away(rt, sheet.away(at))?;
    show_used(rt, sheet, at)
}

fn show_leg(rt: &HostRuntime, sheet: &QuoteSheet, place: usize, leg: Leg) -> io::Result<()> {
    println!(rt; "  leg {place}: {} {} {}", leg.side, leg.ratio, leg.kind)?;
    show_side(rt, sheet, LegSide::bid(place))?;
    show_side(rt, sheet, LegSide::offer(place))
}

fn show_prices(rt: &HostRuntime, strategy: &Strategy, sheet: &QuoteSheet) -> io::Result<()> {
    // it prints and leaves, and hands no absence on
    let Some(derived) = derived_prices(strategy, sheet) else {
        return println!(rt; "  no derived prices: a leg has no used price");
    };
    let (bottom, top) = derived.collars;
    println!(rt; "  DBB {}, DBO {}", derived.dbb, derived.dbo)?;
    println!(rt; "  collars: bottom {bottom}, top {top}")?;
    println!(rt;
        "  leg units: {} for a buyer, {} for a seller",
        derived.buyer_units, derived.seller_units
    )?;
    println!(rt; "  ECOs may meet: {}", yes_no(derived.may_meet))
}

// Says so where a call was refused.
fn show_refused(rt: &HostRuntime, what: &str, answer: Result<(), Refusal>) -> io::Result<()> {
    match answer {
        Ok(()) => Ok(()),
        Err(refusal) => println!(rt; "  {what} {refusal}"),
    }
}

fn price(
    rt: &HostRuntime,
    title: &str,
    legs: &[Leg],
    quotes: &[Quote<Level>],
    aways: &[Quote<u32>],
) -> io::Result<()> {
    println!(rt; "{title}")?;
    let strategy = match Strategy::make(legs) {
        Ok(strategy) => strategy,
        Err(refusal) => return println!(rt; "  strategy {refusal}"),
    };
    let mut sheet = QuoteSheet::new();
    for own in quotes {
        show_refused(rt, "own quote", sheet.set_own(own.at, own.value))?;
    }
    for away in aways {
        show_refused(rt, "away price", sheet.set_away(away.at, away.value))?;
    }
    println!(rt;
        "  smallest ratio {}, every ECO counts as Complex Only: {}",
        strategy.smallest_ratio(),
        yes_no(strategy.counts_complex_only())
    )?;
    for (place, leg) in legs.iter().enumerate() {
        show_leg(rt, &sheet, place, *leg)?;
    }
    show_prices(rt, &strategy, &sheet)
}

fn spread(rt: &HostRuntime) -> io::Result<()> {
    let legs = [call(Side::Buy, 1), call(Side::Sell, 2)];
    let plain = [
        own(LegSide::bid(0), 300, 0, 9),
        own(LegSide::offer(0), 310, 0, 9),
        own(LegSide::bid(1), 100, 0, 9),
        own(LegSide::offer(1), 104, 0, 9),
    ];
    price(
        rt,
        "Buy 1 at 300/310, sell 2 at 100/104",
        &legs,
        &plain,
        &[],
    )?;
    let customers = [
        own(LegSide::bid(0), 300, 0, 9),
        own(LegSide::offer(0), 310, 5, 4),
        own(LegSide::bid(1), 100, 1, 8),
        own(LegSide::offer(1), 104, 0, 9),
    ];
    price(
        rt,
        "The same with customers behind DBO",
        &legs,
        &customers,
        &[],
    )
}

fn one_sided(rt: &HostRuntime) -> io::Result<()> {
    let legs = [call(Side::Buy, 1), call(Side::Sell, 1)];
    let quotes = [
        own(LegSide::offer(0), 101, 0, 7),
        own(LegSide::bid(1), 40, 2, 0),
        own(LegSide::offer(1), 43, 0, 5),
    ];
    price(rt, "A leg that has only an offer", &legs, &quotes, &[])?;
    let missing = [
        own(LegSide::bid(1), 40, 2, 0),
        own(LegSide::offer(1), 43, 0, 5),
    ];
    price(rt, "A leg that has no quote", &legs, &missing, &[])
}

fn away_bound(rt: &HostRuntime) -> io::Result<()> {
    let legs = [call(Side::Buy, 1), call(Side::Sell, 1)];
    let quotes = [
        own(LegSide::bid(0), 227, 0, 7),
        own(LegSide::offer(0), 250, 0, 7),
        own(LegSide::bid(1), 228, 0, 7),
        own(LegSide::offer(1), 250, 0, 7),
    ];
    let aways = [
        Quote {
            at: LegSide::bid(0),
            value: 240,
        },
        Quote {
            at: LegSide::bid(1),
            value: 240,
        },
    ];
    price(
        rt,
        "Own bids 227 and 228 under an away bid of 240",
        &legs,
        &quotes,
        &aways,
    )
}

fn refusals(rt: &HostRuntime) -> io::Result<()> {
    price(rt, "One leg alone", &[call(Side::Buy, 1)], &[], &[])?;
    price(
        rt,
        "Ratios 2 and 4",
        &[call(Side::Buy, 2), call(Side::Sell, 4)],
        &[],
        &[],
    )?;
    let legs = [call(Side::Buy, 1), call(Side::Sell, 1)];
    let quotes = [
        own(LegSide::bid(0), 1_000_001, 0, 1),
        own(LegSide::offer(0), 50, 0, 1),
        own(LegSide::bid(0), 50, 0, 1),
    ];
    price(
        rt,
        "A price out of range, and a bid that would reach the offer",
        &legs,
        &quotes,
        &[],
    )
}

fn main(rt: HostRuntime) -> io::Result<()> {
    spread(&rt)?;
    one_sided(&rt)?;
    away_bound(&rt)?;
    refusals(&rt)
}
