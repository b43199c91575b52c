// The invariant of a floor: what is proved of it, each on the contract of a function that does nothing else.
ghost use Rattle.model.specs.Sound.{MadeFloorsAreSound};
ghost use Rattle.model.specs.SoundLaws.{CallsKeepSound, AlwaysSound, AlwaysWithin, MovementsAreGranted, MovementsNameAccounts, StripsSuffice, SumsFit};
ghost use Rattle.register.specs.Books.{most_amount};
ghost use Rattle.model.specs.Law.{AccountsComeOut, EveryRun, GoingOn};
ghost use Rattle.model.specs.Corollaries.{AccountsStayWithin, TotalsChangeByDepositsAndWithdrawals, NothingBlockedAfterAnEnd, NumbersRise, NumbersApart};
ghost use Rattle.model.specs.Corollaries.{ATradeMoves, OnlyTradesMove, FloorsGiveAllBack};

// Every made floor is sound, every call keeps it so, and so it is after every list of calls: its queues have at most 64 bids, and at most
// 100,000 numbers are given.
pub fn floors_stay_sound()
    ensures made { MadeFloorsAreSound }
    ensures kept { CallsKeepSound }
    ensures always { AlwaysSound }
    ensures within { AlwaysWithin 64 100000 }
{}

// The register grants every movement of a sound floor's calls, and each is of accounts that there are.
pub fn movements_are_granted()
    ensures granted { MovementsAreGranted }
    ensures accounts { MovementsNameAccounts 16 12 }
{}

// The trades of a call have room on its strip, and the sums of the day fit 64 bits.
pub fn numbers_fit()
    ensures strips { StripsSuffice }
    ensures sums { SumsFit 64 }
{}

// After every list of calls the accounts of 16 holders and 12 assets come out: what each holder has is the tally's sum, and what he has
// blocked is what the bids in the queues oblige him to.
pub fn accounts_come_out()
    ensures { AccountsComeOut }
{}

// The law over every list of calls: accounts, blocked amounts and queues are those of the tally; and it goes on from any floor and tally
// that went together so far.
pub fn every_run_is_lawful()
    ensures run { EveryRun }
    ensures step { GoingOn }
{}

// What follows: no account passes the most there can be, only deposits and withdrawals change an asset's total, an end of session leaves
// nothing blocked, a day's numbers rise, and a floor taken apart gives every holder all that he has, free.
pub fn accounts_are_safe()
    ensures within { AccountsStayWithin most_amount }
    ensures totals { TotalsChangeByDepositsAndWithdrawals }
    ensures ends { NothingBlockedAfterAnEnd }
    ensures numbers { NumbersRise }
    ensures apart { FloorsGiveAllBack }
{}

// A trade moves its lots one way and price × lots the other, with a fee of 0, and nothing else; and no bid, cancellation, opening, start
// or end changes what a holder has but by its trades.
pub fn trades_move_exactly()
    ensures trade { ATradeMoves 0 }
    ensures call { OnlyTradesMove }
{}

// No number is given twice in a day: in the log of any calls, of two bids taken on one day the later has a number at least 1 higher.
pub fn numbers_stay_apart()
    ensures { NumbersApart 1 }
{}
