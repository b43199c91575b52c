ghost use Rattle.std.specs.Prelude.{◌≡◌, ◌-◌, min};

// A slip is a claim on a part of what one holder has blocked of one asset. A block gives it, and it must
// be spent: by a release, by a payment, or by lodging it with a bid that stands. It may be let go only
// when nothing is left on it.
pub struct Slip {
    holder: u8,
    asset: u8,
    amount: u64,
}

impl Drop for Slip {
    fn drop(self)
        requires { self.amount ≡ 0 }
    {
        let Slip {
            holder: _,
            asset: _,
            amount: _,
        } = self;
    }
}

impl Slip {
    // A slip for an amount that stands blocked. Registers make one at a block, and whoever keeps a standing
    // bid makes one again for what the bid no longer obliges to. Nothing stops a program from making one
    // for more than is blocked: a register then refuses to release or to pay it.
    pub fn new(holder: u8, asset: u8, amount: u64) -> Slip
        ensures { result ≡ record { holder = holder; asset = asset; amount = amount } }
    {
        Slip {
            holder,
            asset,
            amount,
        }
    }

    // Ends a slip: who takes its numbers answers for the amount from here on, as a register that releases
    // or pays it, or as a standing bid that it is lodged with.
    pub fn into_parts(self) -> (u8, u8, u64)
        ensures { result ≡ (self.holder, self.asset, self.amount) }
    {
        let Slip {
            holder,
            asset,
            amount,
        } = self;
        (holder, asset, amount)
    }

    pub fn holder(&self) -> u8
        ensures { result ≡ self.now.holder }
    {
        self.holder
    }

    pub fn asset(&self) -> u8
        ensures { result ≡ self.now.asset }
    {
        self.asset
    }

    pub fn amount(&self) -> u64
        ensures { result ≡ self.now.amount }
    {
        self.amount
    }

    // Cuts a part off, and keeps the rest: `amount`, or the whole where there is less.
    pub fn cut_off(&mut self, amount: u64) -> Slip
        ensures part { result ≡ record { holder = self.old.holder; asset = self.old.asset; amount = min amount self.old.amount } }
        ensures rest { self.new ≡ record { holder = self.old.holder; asset = self.old.asset; amount = self.old.amount - amount } }
    {
        let whole = &mut self.amount;
        let part = amount.min(*whole);
        *whole -= part;
        Slip::new(self.holder, self.asset, part)
    }

    // Two slips that add up to this one: the first for `amount`, or for the whole where there is less.
    pub fn cut(mut self, amount: u64) -> (Slip, Slip)
        ensures first { result.0 ≡ record { holder = self.holder; asset = self.asset; amount = min amount self.amount } }
        ensures rest { result.1 ≡ record { holder = self.holder; asset = self.asset; amount = self.amount - amount } }
    {
        let part = self.cut_off(amount);
        (part, self)
    }
}
