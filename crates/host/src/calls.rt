// Calls of a floor, and what is told of them.
ghost use Rattle.std.specs.Prelude.{◌≡◌, ◌≤◌, length, take};
ghost use Rattle.model.specs.Calls.{answer, after, trades};
ghost use Rattle.floor.specs.Making.{Leaves};
ghost use Rattle.floor.specs.Floors.{seen};
ghost use Rattle.host.specs.Answering.{Adds, call_text_lem};

use crate::tapes::Tape;
use crate::texts::add_lines;
use floor::floors::Floor;
use floor::runner::{count_of, resume};
use model::calls::{Answer, Call};
use register::registers::Register;
use rules::MarketRule;
use std::alloc::AllocError;
use telling::answers::CallLine;

// Makes a call with a tape that is long enough for every call, and answers how many trades it wrote to the tape's front.
fn make_call<R: Register, M: MarketRule>(
    floor: &mut Floor<R, M>,
    call: Call,
    tape: &mut Tape,
) -> (Answer, usize)
    ensures answer { result.0 ≡ answer (M.MarketRule.means floor.old.state.rule) (seen R.Register.means floor.old.state) call }
    ensures count { result.1 ≤ length tape.new.records }
    ensures trades { take result.1 tape.new.records ≡ trades (M.MarketRule.means floor.old.state.rule) (seen R.Register.means floor.old.state) call }
    ensures leaves { Leaves R.Register.means floor.old.state floor.new.state (after (M.MarketRule.means floor.old.state.rule) (seen R.Register.means floor.old.state) call) }
{
    let mut answers = [Answer::Done];
    resume(floor, &[call], &mut answers, &mut tape.records);
    let answer = answers[0];
    (answer, count_of(&answer))
}

// Makes a call, and tells its answer and its trades. Kept as parameters, here and for lines: a struct of the text, the floor and the tape
// would borrow all three for each line, and each clause would name one of them again.
pub(crate) fn tell_call<R: Register, M: MarketRule>(
    text: &mut String,
    floor: &mut Floor<R, M>,
    tape: &mut Tape,
    call: Call,
) -> Result<(), AllocError>
    ensures text { Adds result text.old text.new (call_text_lem (M.MarketRule.means floor.old.state.rule) (seen R.Register.means floor.old.state) call) }
    ensures leaves { Leaves R.Register.means floor.old.state floor.new.state (after (M.MarketRule.means floor.old.state.rule) (seen R.Register.means floor.old.state) call) }
{
    let (answer, count) = make_call(floor, call, tape);
    writeln!(text, "{}", CallLine { call, answer })?;
    add_lines(text, &tape.records[0..count])
}
