// Passes: who holds one may bid and cancel in its session. They are moved, never copied, and only a floor gives them out.
// Kept as three types: a pass is told from another by its type alone, and one generic pass would want as many marks.
ghost use Rattle.std.specs.Prelude.{◌≡◌};
ghost use Rattle.model.specs.declared.words.Session.{Session};
ghost use Rattle.model.specs.declared.words.Session.TheVariants.{PreTrading, Trading, PostTrading};

use model::words::Session;

// A pass of one of the three sessions in which bids are taken.
pub trait Pass {
    // the session that the pass serves in
    ghost serving: { Session };

    fn session(&self) -> Session
        ensures { result ≡ serving };
}

#[derive(Drop)]
pub struct PreTradingPass {
    given: (),
}

#[derive(Drop)]
pub struct TradingPass {
    given: (),
}

#[derive(Drop)]
pub struct PostTradingPass {
    given: (),
}

impl PreTradingPass {
    // The start of a day gives it.
    pub(crate) fn new() -> PreTradingPass {
        PreTradingPass { given: () }
    }

    // The opening takes it and gives the next.
    pub(crate) fn open(self) -> TradingPass {
        let PreTradingPass { given } = self;
        TradingPass { given }
    }
}

impl TradingPass {
    // The end of trading takes it and gives the next.
    pub(crate) fn end(self) -> PostTradingPass {
        let TradingPass { given } = self;
        PostTradingPass { given }
    }
}

impl Pass for PreTradingPass {
    ghost serving = { PreTrading };

    fn session(&self) -> Session {
        Session::PreTrading
    }
}

impl Pass for TradingPass {
    ghost serving = { Trading };

    fn session(&self) -> Session {
        Session::Trading
    }
}

impl Pass for PostTradingPass {
    ghost serving = { PostTrading };

    fn session(&self) -> Session {
        Session::PostTrading
    }
}
