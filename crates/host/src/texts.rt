// A text that grows line by line.
ghost use Rattle.std.specs.Prelude.{◌≡◌, ℕ, List, Some};
ghost use Rattle.host.specs.Answering.{Adds, told_each};

use std::alloc::AllocError;
use std::fmt::Display;

// Adds a line for each.
pub(crate) fn add_lines<L: Display>(text: &mut String, items: &[L]) -> Result<(), AllocError>
    ensures { (line : L → List ℕ) → ((x : L) → L.Display.output x ≡ Some (line x))
        → Adds result text.old text.new (told_each line items.now) }
{
    for item in items {
        writeln!(text, "{item}")?;
    }
    Ok(())
}
