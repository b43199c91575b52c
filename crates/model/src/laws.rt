// What is proved of the definitions, each on the contract of a function that does nothing else.
ghost use Rattle.std.specs.Prelude.{◌≡◌, length};
ghost use Rattle.model.specs.AnswerLaws.{AnswersTell};
ghost use Rattle.model.specs.AverageLaws.{AverageLaws, RoundedDown};
ghost use Rattle.model.specs.BidLaws.{BidsAreRight};
ghost use Rattle.model.specs.BidNumbers.{BidsRefusedBy, bid_numbers};
ghost use Rattle.model.specs.CheckLaws.{EveryCallIsDecided, RefusalsAlterNothing, NumbersInOrder, Never};
ghost use Rattle.model.specs.Figures.{FiguresHold, figures};
ghost use Rattle.model.specs.LookLaws.{LooksAreRight};
ghost use Rattle.model.specs.MatchingLaws.{RankingsAreLawful, MatchingIsRight, EntireIsWhole, QueuesStayRanked};
ghost use Rattle.model.specs.OpeningLaws.{OpeningPriceIsBest, OpeningClears, TickersRise};
ghost use Rattle.model.specs.QueueLaws.{PriceThenTime, CancelsTakeOwn};
ghost use Rattle.model.specs.RefusalLaws.{RefusalsAreTrue};
ghost use Rattle.model.specs.Sound.{MadeFloorsAreSound};

// A floor made over any register is sound. Every call is either refused by the first check that fails or registered, and never both; a
// refusal alters nothing; the reason that it names holds, and where a reason holds the call is refused; an answer tells the trades on the
// strip; each check gives the numbers of its place, and no call is ever refused by 36.
pub fn calls_stand()
    ensures made { MadeFloorsAreSound }
    ensures decided { EveryCallIsDecided }
    ensures unaltered { RefusalsAlterNothing }
    ensures reasons { RefusalsAreTrue }
    ensures told { AnswersTell }
    ensures numbers { NumbersInOrder }
    ensures never { Never 36 }
{}

// A newcomer trades at the standing prices it crosses, in ranking order, until it is filled or nothing that it crosses is left; no lot
// is lost; an entire bid is filled whole or trades nothing; queues stay ranked.
pub fn matching_stands()
    ensures lawful { RankingsAreLawful }
    ensures right { MatchingIsRight 1 }
    ensures entire { EntireIsWhole }
    ensures ranked { QueuesStayRanked }
{}

// The queues of a sound floor stand in the order of price and, at one price, of numbers at least 1 apart. A cancellation takes out one bid,
// its holder's own, and leaves every other where it is.
pub fn queues_stand()
    ensures order { PriceThenTime 1 }
    ensures cancel { CancelsTakeOwn }
{}

// Of a bid as a whole: its lots are traded or left, what stands is the rest of a partial keep bid with a price, what the rule is told,
// and that its block comes out to the unit. On a sound floor it is refused by 3 to 9, 21 to 24, 10, 34 and 35 alone.
pub fn bids_stand()
    ensures right { BidsAreRight 1 }
    ensures refused { BidsRefusedBy bid_numbers }
{}

// The opening price is a standing price, at no whole price would more lots trade, and it wins both tie-breaks. The smaller of demand
// and supply is traded, all at it, in ranking order, and afterwards every buy is priced below every sell. Tickers follow in rising order.
pub fn opening_stands()
    ensures best { OpeningPriceIsBest }
    ensures clears { OpeningClears 1 }
    ensures rising { TickersRise }
{}

// The average lies between the lowest and the highest price, is at least 1, and is less than one unit below the exact one.
pub fn average_stands()
    ensures bounds { AverageLaws }
    ensures rounded { RoundedDown 1 }
{}

// A look at an account, a queue or an average answers it as it is, and is refused by 31 or 5 where there is none.
pub fn looks_stand()
    ensures { LooksAreRight 31 5 }
{}

// The checked figures hold of the definitions together; there are as many as this answers.
pub fn figures_hold() -> usize
    ensures hold { FiguresHold }
    ensures rows { result ≡ length figures }
{
    16
}
