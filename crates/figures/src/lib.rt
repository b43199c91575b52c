#![tactic(auto)]

// Examples worked out by hand, run on every kind of register.
#[cfg(test)]
mod caps;
#[cfg(test)]
mod registers_agree;
