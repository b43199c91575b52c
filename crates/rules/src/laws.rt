// What is proved of the definitions, each on the contract of a function that does nothing else.
ghost use Rattle.std.specs.Prelude.{◌≡◌, ◌^◌, length};
ghost use Rattle.rules.specs.Figures.{Hold, figures};
ghost use Rattle.rules.specs.Laws.{CorporateLaw, GovernmentLaw, ObligationLaw};

// The corporate rule admits the prices at most 10 per cent off the bests and at most 15 off the settlement price, and no others.
pub fn corporate_stands()
    ensures { CorporateLaw 10 15 }
{}

// The government rule admits lots in tens, at most 5 per cent off the best of the bid's side, of a holder with no opposite bid, and no
// others.
pub fn government_stands()
    ensures { GovernmentLaw 10 5 }
{}

// A priced bid within the limits obliges to something, and to at most 10^13.
pub fn obligation_stands()
    ensures { ObligationLaw (10 ^ 13) }
{}

// The checked figures hold of the definitions; there are as many as this answers.
pub fn figures_hold() -> usize
    ensures hold { Hold figures }
    ensures rows { result ≡ length figures }
{
    9
}
