ghost use Rattle.std.specs.Prelude.{◌≡◌, ◌<◌, None, nat_le, false, MatchResult};
ghost use Rattle.register.specs.Moves.{Release, Pay, refusal, after_move, need, known, fault, lawful_amount, granted, handed_back};
ghost use Rattle.registers.specs.Balances.{balance_of};
ghost use Rattle.register.specs.declared.faults.RegisterCause.TheVariants.{NoAccount, BadAmount, TooLittleFree, TooLittleBlocked};
ghost use Rattle.std.proofs.Common.{rules};

use crate::accounts::{Accounts, Known};
use crate::balances::Balance;
use register::faults::{Account, RegisterCause, RegisterFault};
use register::registers::{MOST, Register};
use register::slips::Slip;

// A bottom register: it stands on no other register, keeps the balances in `accounts`, and has every cap
// at the most.
#[derive(Drop)]
pub struct Bottom<A> {
    accounts: A,
}

impl<A> Bottom<A> {
    pub(crate) fn over(accounts: A) -> Bottom<A>
        ensures { result ≡ record { accounts = accounts } }
    {
        Bottom { accounts }
    }
}

// Refuses with a cause unless the condition holds. Kept with holder and asset apart: it also refuses where there is no such account.
fn check(met: bool, cause: RegisterCause, holder: u8, asset: u8) -> Result<(), RegisterFault>
    ensures { result ≡ granted (need met (fault cause holder asset 0) None) tt }
{
    met.then_some(())
        .ok_or_else(|| RegisterFault::untagged(cause, holder, asset))
}

// The account, where there is one.
fn check_account(holder: u8, asset: u8) -> Result<Known, RegisterFault>
    ensures { MatchResult result (λ k. (k.holder ≡ holder) × (k.asset ≡ asset)) (λ f. (known holder asset ≡ false) × (f ≡ fault NoAccount holder asset 0)) }
{
    check(
        holder < 16 && asset < 12,
        RegisterCause::NoAccount,
        holder,
        asset,
    )?;
    Ok(Known { holder, asset })
}

fn check_amount(holder: u8, asset: u8, amount: u64) -> Result<(), RegisterFault>
    ensures { result ≡ granted (need (lawful_amount amount) (fault BadAmount holder asset 0) None) tt }
{
    check(
        (1..=MOST).contains(&amount),
        RegisterCause::BadAmount,
        holder,
        asset,
    )
}

// The answer of a call that takes a slip: a movement that is made ends the slip, a refusal hands it back.
fn settled(made: Result<(), RegisterFault>, slip: Slip) -> Result<(), (RegisterFault, Slip)>
    ensures { (refused : _) → made ≡ granted refused tt → result ≡ handed_back refused slip }
{
    match made {
        Ok(()) => {
            slip.into_parts();
            Ok(())
        }
        Err(fault) => Err((fault, slip)),
    }
}

impl<A: Accounts> Bottom<A> {
    // The balance of an account with at least this much free. Kept as two, this and the next: one for both would have each caller name the
    // part of the balance and the cause.
    fn having_free(&self, account: Known, amount: u64) -> Result<Balance, RegisterFault>
        ensures { result ≡ granted (need (nat_le amount ((A.Accounts.book self.now.accounts).free account.holder account.asset)) (fault TooLittleFree account.holder account.asset 0) None) (balance_of (A.Accounts.book self.now.accounts) account.holder account.asset) }
    {
        let balance = self.accounts.balance(account);
        check(
            amount <= balance.free,
            RegisterCause::TooLittleFree,
            account.holder,
            account.asset,
        )?;
        Ok(balance)
    }

    // The balance of an account with at least this much blocked.
    fn having_blocked(&self, account: Known, amount: u64) -> Result<Balance, RegisterFault>
        ensures { result ≡ granted (need (nat_le amount ((A.Accounts.book self.now.accounts).blocked account.holder account.asset)) (fault TooLittleBlocked account.holder account.asset 0) None) (balance_of (A.Accounts.book self.now.accounts) account.holder account.asset) }
    {
        let balance = self.accounts.balance(account);
        check(
            amount <= balance.blocked,
            RegisterCause::TooLittleBlocked,
            account.holder,
            account.asset,
        )?;
        Ok(balance)
    }

    // Moves an amount from blocked to free.
    fn free_again(&mut self, holder: u8, asset: u8, amount: u64) -> Result<(), RegisterFault>
        ensures answer { result ≡ granted (refusal (A.Accounts.book self.old.accounts) (Release holder asset amount)) tt }
        ensures after { A.Accounts.book self.new.accounts ≡ after_move (A.Accounts.book self.old.accounts) (Release holder asset amount) }
    {
        let account = check_account(holder, asset)?;
        let Balance { free, blocked } = self.having_blocked(account, amount)?;
        let after = Balance {
            free: free + amount,
            blocked: blocked - amount,
        };
        self.accounts.put(account, after);
        Ok(())
    }

    // Moves an amount from the holder's blocked to the payee's free.
    fn pay_over(
        &mut self,
        holder: u8,
        asset: u8,
        amount: u64,
        payee: u8,
    ) -> Result<(), RegisterFault>
        ensures answer { result ≡ granted (refusal (A.Accounts.book self.old.accounts) (Pay holder asset amount payee)) tt }
        ensures after { A.Accounts.book self.new.accounts ≡ after_move (A.Accounts.book self.old.accounts) (Pay holder asset amount payee) }
    {
        let payer = check_account(holder, asset)?;
        let payee = check_account(payee, asset)?;
        let from = self.having_blocked(payer, amount)?;
        let paid = Balance {
            blocked: from.blocked - amount,
            ..from
        };
        self.accounts.put(payer, paid);
        let to = self.accounts.balance(payee);
        let given = Balance {
            free: to.free + amount,
            ..to
        };
        self.accounts.put(payee, given);
        Ok(())
    }
}

impl<A: Accounts> Register for Bottom<A> {
    ghost means = { λ s. A.Accounts.book s.accounts };

    ghost bounded = { Prim.search rules };

    fn read(&self, holder: u8, asset: u8) -> Result<Account, RegisterFault> {
        let account = check_account(holder, asset)?;
        let Balance { free, blocked } = self.accounts.balance(account);
        Ok(Account {
            free,
            blocked,
            limit: MOST,
        })
    }

    fn deposit(&mut self, holder: u8, asset: u8, amount: u64) -> Result<(), RegisterFault> {
        let account = check_account(holder, asset)?;
        check_amount(holder, asset, amount)?;
        let held = self.accounts.held(asset);
        check(
            held + amount <= MOST,
            RegisterCause::OverTotal,
            holder,
            asset,
        )?;
        let before = self.accounts.balance(account);
        let after = Balance {
            free: before.free + amount,
            ..before
        };
        self.accounts.put(account, after);
        Ok(())
    }

    fn withdraw(&mut self, holder: u8, asset: u8, amount: u64) -> Result<(), RegisterFault> {
        let account = check_account(holder, asset)?;
        check_amount(holder, asset, amount)?;
        let before = self.having_free(account, amount)?;
        let after = Balance {
            free: before.free - amount,
            ..before
        };
        self.accounts.put(account, after);
        Ok(())
    }

    fn block(&mut self, holder: u8, asset: u8, amount: u64) -> Result<Slip, RegisterFault> {
        let account = check_account(holder, asset)?;
        check_amount(holder, asset, amount)?;
        let Balance { free, blocked } = self.having_free(account, amount)?;
        check(
            blocked + amount <= MOST,
            RegisterCause::OverCap,
            holder,
            asset,
        )?;
        let after = Balance {
            free: free - amount,
            blocked: blocked + amount,
        };
        self.accounts.put(account, after);
        Ok(Slip::new(holder, asset, amount))
    }

    fn release(&mut self, slip: Slip) -> Result<(), (RegisterFault, Slip)> {
        let made = self.free_again(slip.holder(), slip.asset(), slip.amount());
        settled(made, slip)
    }

    fn pay(&mut self, slip: Slip, payee: u8) -> Result<(), (RegisterFault, Slip)> {
        let made = self.pay_over(slip.holder(), slip.asset(), slip.amount(), payee);
        settled(made, slip)
    }
}
