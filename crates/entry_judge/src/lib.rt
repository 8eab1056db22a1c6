// The entry `judge`: whether the new order of a ticket is accepted, and how many iterations there are.
#![tactic(auto)]

ghost use Rattle.std.specs.Prelude.{◌≡◌, List, ℕ};
ghost use Rattle.model.specs.Entries as Entries;
ghost use Rattle.ticket_refusals.specs.Refusals.{answer_of};
ghost use Rattle.entry_answers.specs.Answers.{Demand3};

use entry_answers::Answer;
use model::{NEST_ROOM, WORDS};

// Where it accepts, the new order runs each iteration of the old exactly once and every array ends equal, whatever the arrays hold and whatever
// the rules (model, Demands: demand-3); a refusal has its reason (judge-refuses).
pub fn judge(ticket: &[u8]) -> Answer
    ensures { (answer_of result ≡ Entries.judge ticket.now)
        × ((buffer store : List ℕ) → Demand3 ticket.now buffer store result) }
{
    let mut limits = [0i16; NEST_ROOM];
    let mut words = [0i16; WORDS];
    let read = ticket_decoding::decode(ticket, &mut limits, &mut words);
    let decided = ticket_judgement::decide(read, &mut limits, &mut words)?;
    Ok(decided.count)
}
