//! Fills a depth book, takes from it in a trial that leaves it as it is, and then takes for real.
#![tactic(auto)]

use depth_book::book::DepthBook;
use leg_orders::order::LegOrder;
use market::leg_market::{LegMarket, MarketView};
use market::reader::MarketReader;
use market::trial::Trial;
use quotes::taken::Taken;
use std::io;
use terms::refusal::Refusal;
use terms::side::LegSide;
use terms::strategy::MAX_LEGS;

// Whose an order is: a customer's or not, as the rules put it, where `bool` would be written as true or false.
fn owner_name(customer: bool) -> &'static str {
    if customer { "customer" } else { "other" }
}

fn show_side<M: MarketView>(rt: &HostRuntime, market: &M, at: LegSide) -> io::Result<()> {
    // each place is asked once: a trial walks the levels below it for each answer
    let mut levels = (0..M::max_levels())
        .map_while(|place| market.level(at, place))
        .peekable();
    if levels.peek().is_none() {
        println!(rt; "    {at}: none")?;
    }
    for level in levels {
        println!(rt;
            "    {at} {}: {} customer, {} other",
            level.price, level.customer, level.other
        )?;
    }
    match market.away(at) {
        Some(price) => println!(rt; "    {at} away {price}"),
        None => Ok(()),
    }
}

fn show_levels<M: MarketView>(rt: &HostRuntime, title: &str, market: &M) -> io::Result<()> {
    println!(rt; "  {title}")?;
    // the two legs that are quoted here
    for leg in 0..2 {
        show_side(rt, market, LegSide::bid(leg))?;
        show_side(rt, market, LegSide::offer(leg))?;
    }
    Ok(())
}

fn show_orders(rt: &HostRuntime, title: &str, orders: &[LegOrder]) -> io::Result<()> {
    println!(rt; "  {title}")?;
    for order in orders {
        println!(rt;
            "    order {}: {} {}, {} {}",
            order.number,
            order.at,
            order.price,
            order.contracts,
            owner_name(order.customer)
        )?;
    }
    Ok(())
}

fn show_done(rt: &HostRuntime, answer: Result<(), Refusal>) -> io::Result<()> {
    match answer {
        Ok(()) => println!(rt; " done"),
        Err(refusal) => println!(rt; " {refusal}"),
    }
}

fn add(
    rt: &HostRuntime,
    book: &mut DepthBook<'_>,
    at: LegSide,
    price: u32,
    contracts: u32,
    customer: bool,
) -> io::Result<()> {
    print!(rt; "  add {at} {price}, {contracts} {}:", owner_name(customer))?;
    match book.add(at, price, contracts, customer) {
        Ok(number) => println!(rt; " order {number}"),
        Err(refusal) => println!(rt; " {refusal}"),
    }
}

fn withdraw(rt: &HostRuntime, book: &mut DepthBook<'_>, number: u32) -> io::Result<()> {
    print!(rt; "  withdraw order {number}:")?;
    show_done(rt, book.withdraw(number))
}

fn take<M: LegMarket>(
    rt: &HostRuntime,
    market: &mut M,
    at: LegSide,
    quantity: u32,
) -> io::Result<()> {
    print!(rt; "  take {quantity} from {at}:")?;
    show_done(rt, market.take(at, quantity))
}

// The same takes in a trial and for real.
fn takes<M: LegMarket>(rt: &HostRuntime, market: &mut M) -> io::Result<()> {
    take(rt, market, LegSide::offer(0), 3)?;
    take(rt, market, LegSide::offer(0), 5)?;
    take(rt, market, LegSide::offer(0), 4)?;
    take(rt, market, LegSide::offer(0), 1)?;
    take(rt, market, LegSide::bid(1), 6)
}

fn fill(rt: &HostRuntime, book: &mut DepthBook<'_>) -> io::Result<()> {
    add(rt, book, LegSide::offer(0), 312, 4, false)?;
    add(rt, book, LegSide::offer(0), 310, 5, false)?;
    add(rt, book, LegSide::offer(0), 310, 1, true)?;
    add(rt, book, LegSide::bid(0), 300, 9, false)?;
    add(rt, book, LegSide::offer(0), 310, 1, true)?;
    add(rt, book, LegSide::bid(1), 100, 6, false)?;
    add(rt, book, LegSide::bid(1), 99, 2, true)?;
    print!(rt; "  set leg 1 offer away 104:")?;
    show_done(rt, book.set_away(LegSide::offer(1), 104))
}

fn refused(rt: &HostRuntime, book: &mut DepthBook<'_>) -> io::Result<()> {
    add(rt, book, LegSide::bid(6), 100, 1, false)?;
    add(rt, book, LegSide::bid(0), 310, 1, false)?;
    add(rt, book, LegSide::offer(0), 310, 9_999_994, false)?;
    add(rt, book, LegSide::bid(1), 98, 1, false)?;
    add(rt, book, LegSide::bid(1), 97, 1, false)?;
    withdraw(rt, book, 9)
}

fn rehearse(rt: &HostRuntime, book: &DepthBook<'_>) -> io::Result<[Taken; MAX_LEGS]> {
    let mut trial = Trial::new(MarketReader::new(book));
    takes(rt, &mut trial)?;
    show_levels(rt, "the trial shows", &trial)?;
    Ok(trial.totals())
}

fn rehearse_on(
    rt: &HostRuntime,
    book: &DepthBook<'_>,
    totals: [Taken; MAX_LEGS],
) -> io::Result<()> {
    let trial = Trial::resume(MarketReader::new(book), totals);
    show_levels(rt, "the trial, resumed, shows", &trial)
}

fn play(rt: &HostRuntime, book: &mut DepthBook<'_>) -> io::Result<()> {
    println!(rt; "The book is filled")?;
    fill(rt, book)?;
    show_orders(rt, "orders, in rank", book.orders())?;
    show_levels(rt, "the book shows", &*book)?;
    println!(rt; "What is refused")?;
    refused(rt, book)?;
    println!(rt; "Takes in a trial")?;
    let totals = rehearse(rt, &*book)?;
    show_levels(rt, "the book still shows", &*book)?;
    println!(rt; "Takes for real")?;
    takes(rt, book)?;
    show_orders(rt, "orders, in rank", book.orders())?;
    show_levels(rt, "the book shows", &*book)?;
    println!(rt; "The trial goes on, with more taken than now stands")?;
    withdraw(rt, book, 8)?;
    rehearse_on(rt, &*book, totals)
}

fn main(rt: HostRuntime) -> io::Result<()> {
    let mut many = [LegOrder::blank(); 513];
    print!(&rt; "Memory for 513 orders:")?;
    match DepthBook::lend(&mut many) {
        Ok(_) => println!(&rt; " lent")?,
        Err(refusal) => println!(&rt; " {refusal}")?,
    }
    let mut slots = [LegOrder::blank(); 8];
    print!(&rt; "Memory for 8 orders:")?;
    match DepthBook::lend(&mut slots) {
        Ok(mut book) => {
            println!(&rt; " lent")?;
            play(&rt, &mut book)
        }
        Err(refusal) => println!(&rt; " {refusal}"),
    }
}
