// The average price of a ticker's trades, worked out from their sums.
ghost use Rattle.std.specs.Prelude.{◌≡◌};
ghost use Rattle.model.specs.Average.{average};

// What a lot cost on average, where so many lots cost so much together, rounded down; none where nothing was traded.
pub fn average_price(worth: u64, lots: u64) -> Option<u64>
    ensures { result ≡ average worth lots }
{
    worth.checked_div(lots)
}
