// What one holder has of one asset; nothing at first.
#[derive(Clone, Copy, PartialEq, Eq, Debug, Default)]
pub struct Balance {
    pub free: u64,
    pub blocked: u64,
}
