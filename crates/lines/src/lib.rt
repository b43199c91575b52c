// Lines and what they name, answers and their lines: a law over all of them, and examples worked out by hand.
#![tactic(auto)]

ghost use Rattle.lines.specs.Writing.{LinesAreReadBack};

#[cfg(test)]
mod accounts;
#[cfg(test)]
mod answers;
#[cfg(test)]
mod commands;
#[cfg(test)]
mod faults;
#[cfg(test)]
mod options;
#[cfg(test)]
mod refusals;

// Every command can be written in a line, with a space (32) behind each word, and the line is read as that command.
pub fn lines_are_read_back()
    ensures { LinesAreReadBack 32 }
{}
