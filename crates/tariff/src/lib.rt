// The cost of a usage day, and the prices of an account by day. It uses the calendar's days. Its promises cite specs/Tariff.antt and
// specs/Prices.antt.
#![tactic(auto)]

ghost use Rattle.std.specs.Prelude.{◌≡◌};
ghost use Rattle.tariff.specs.Tariff.{cost_of};
ghost use Rattle.tariff.specs.Prices.{opening_prices, in_force, price_place, with_price};

use calendar::DAY_COUNT;

// In whole cents, for any Wh at any price in hundredths of a cent per kWh.
#[tactic(auto, unfolding(crate::specs::Tariff::cost_of))]
pub fn cost(wh: u32, price: u32) -> u64
    ensures { result ≡ cost_of wh price }
{
    (u64::from(wh) * u64::from(price) + 50000) / 100000
}

// A price in force from a day on. A cell that is not taken has day 400.
#[repr(C)]
#[derive(Clone, Copy, Debug, PartialEq, Eq)]
pub struct DayPrice {
    pub day: u32,
    pub price: u32,
}

// Day 0's price and those of sixteen later days.
pub const PRICE_CELLS: u32 = 17;

pub type Prices = [DayPrice; PRICE_CELLS as usize];

// Those of a fresh account: day 0's is the opening price.
pub fn opening_prices(opening_price: u32) -> Prices
    ensures { result ≡ opening_prices opening_price }
{
    let mut prices = [DayPrice {
        day: DAY_COUNT,
        price: 0,
    }; PRICE_CELLS as usize];
    prices[0] = DayPrice {
        day: 0,
        price: opening_price,
    };
    prices
}

// The price in force on a day, for any cells.
#[tactic(auto, unfolding(crate::specs::Prices::in_force))]
pub fn in_force(prices: &Prices, opening_price: u32, day: u32) -> u32
    ensures { result ≡ in_force opening_price prices.now day }
{
    let mut price = opening_price;
    for cell in prices {
        if cell.day > day {
            break;
        }
        price = cell.price;
    }
    price
}

// The place of a price posted on the day; past the cells where none is left for it.
pub fn price_place(prices: &Prices, day: u32) -> u32
    ensures { result ≡ price_place prices.now day }
{
    prices.iter().take_while(|cell| cell.day < day).count() as u32
}

// Writes a price of a day at the place; past the cells nothing is written.
pub fn set_price(prices: &mut Prices, place: u32, day: u32, price: u32)
    ensures { prices.new ≡ with_price prices.old place day price }
{
    if place < PRICE_CELLS {
        prices[place as usize] = DayPrice { day, price };
    }
}
