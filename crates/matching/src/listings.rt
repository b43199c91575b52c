// The lines of a day's listing.
ghost use Rattle.std.specs.Prelude.{◌≡◌, true};
ghost use Rattle.model.specs.Market.{ticker_known};
ghost use Rattle.model.specs.Listings.{quote_of, settlement_of, asset_of_lem};
ghost use Rattle.matching.specs.Dealing.{asset_by};

use model::words::{Listing, Quote};
use rules::Side;

// The line of a ticker.
pub fn quote(listing: &Listing, ticker: u8) -> Quote
    ensures { result ≡ quote_of listing.now ticker }
{
    let line = listing.quotes.get(ticker.saturating_sub(4) as usize);
    line.copied().unwrap_or_default()
}

// The settlement price of a ticker, where it has one.
pub fn settlement_price(listing: &Listing, ticker: u8) -> Option<u32>
    ensures { result ≡ settlement_of listing.now ticker }
{
    let price = quote(listing, ticker).settlement;
    (price != 0).then_some(price)
}

// What a bid is paid with: a buy with its ticker's currency, a sell with the ticker itself.
pub fn paid_with(currency: u8, ticker: u8, side: Side) -> u8
    ensures { result ≡ asset_by currency ticker side }
{
    match side {
        Side::Buy => currency,
        Side::Sell => ticker,
    }
}

// What a bid on a ticker of the listing is paid with.
pub fn asset_of(listing: &Listing, ticker: u8, side: Side) -> u8
    ensures { result ≡ asset_of_lem listing.now ticker side }
{
    paid_with(quote(listing, ticker).currency, ticker, side)
}
