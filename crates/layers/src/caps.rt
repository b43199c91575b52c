ghost use Rattle.std.specs.Prelude.{◌≡◌, ◌<◌};
ghost use Rattle.layers.specs.Layers.{cap_for, capped};

use register::faults::{Account, RegisterCause, RegisterFault};
use register::registers::Register;
use register::slips::Slip;

// The caps of a layer, one for each asset, and the tag by which they name themselves.
#[derive(Clone, Copy, PartialEq, Eq, Debug)]
pub struct Caps {
    pub amounts: [u64; 12],
    pub tag: u32,
}

impl Caps {
    fn of(&self, asset: u8) -> u64
        requires { asset < 12 }
        ensures { result ≡ cap_for self.now asset }
    {
        self.amounts[asset as usize]
    }
}

// A register with caps of its own over those of the register below.
pub struct CapLayer<R: Register> {
    below: R,
    caps: Caps,
}

impl<R: Register> CapLayer<R> {
    pub fn new(below: R, caps: Caps) -> CapLayer<R>
        ensures { result ≡ record { below = below; caps = caps } }
    {
        CapLayer { below, caps }
    }

    // Takes the layer off.
    pub fn into_below(self) -> R
        ensures { result ≡ self.below }
    {
        let CapLayer { below, caps: _ } = self;
        below
    }
}

impl<R: Register> Register for CapLayer<R> {
    ghost means = { λ s. capped s.caps (R.Register.means s.below) };

    ghost bounded = { λ r. R.Register.bounded r.below };

    fn read(&self, holder: u8, asset: u8) -> Result<Account, RegisterFault> {
        let account = self.below.read(holder, asset)?;
        let limit = account.limit.min(self.caps.of(asset));
        Ok(Account { limit, ..account })
    }

    fn deposit(&mut self, holder: u8, asset: u8, amount: u64) -> Result<(), RegisterFault> {
        self.below.deposit(holder, asset, amount)
    }

    fn withdraw(&mut self, holder: u8, asset: u8, amount: u64) -> Result<(), RegisterFault> {
        self.below.withdraw(holder, asset, amount)
    }

    // The layer speaks by itself only where its own cap is all that it finds wrong; an amount that free does
    // not cover, as any other fault, is for the register below to refuse.
    fn block(&mut self, holder: u8, asset: u8, amount: u64) -> Result<Slip, RegisterFault> {
        let account = self.below.read(holder, asset)?;
        let free = account.free;
        let room = self.caps.of(asset).saturating_sub(account.blocked);
        if room < amount && amount <= free {
            return Err(RegisterFault {
                cause: RegisterCause::OverCap,
                holder,
                asset,
                tag: self.caps.tag,
            });
        }
        self.below.block(holder, asset, amount)
    }

    fn release(&mut self, slip: Slip) -> Result<(), (RegisterFault, Slip)> {
        self.below.release(slip)
    }

    fn pay(&mut self, slip: Slip, payee: u8) -> Result<(), (RegisterFault, Slip)> {
        self.below.pay(slip, payee)
    }
}
