ghost use Rattle.std.specs.Prelude.{◌≡◌, ◌+◌, ◌-◌, ◌<◌, ◌≤◌, ◌++◌, length, take, drop};
ghost use Rattle.std.specs.List.{insert, remove};

// Puts `item` at the place `at` of the list in the first `len` slots; the entries from there on move one place back.
pub(crate) fn insert_at<E: Copy>(slots: &mut [E], len: usize, at: usize, item: E)
    requires { (len < length slots.old) × (at ≤ len) }
    ensures { slots.new ≡ insert (take len slots.old) at item ++ drop (len + 1) slots.old }
{
    slots.copy_within(at..len, at + 1);
    slots[at] = item;
}

// Closes the gap at the place `at` of the list in the first `len` slots: the entries behind it move one place up.
// The slot of the last entry keeps what it held, and is spare from now on.
pub(crate) fn close_gap<E: Copy>(slots: &mut [E], len: usize, at: usize)
    requires { (len ≤ length slots.old) × (at < len) }
    ensures front { take (len - 1) slots.new ≡ remove (take len slots.old) at }
    ensures behind { drop (len - 1) slots.new ≡ drop (len - 1) slots.old }
{
    slots.copy_within(at + 1..len, at);
}
