// The entry `write`: the new nest of an accepted ticket as bytes.
#![tactic(auto)]

ghost use Rattle.std.specs.Prelude.{List, ℕ};
ghost use Rattle.model.specs.Entries as Entries;
ghost use Rattle.entry_answers.specs.Answers.{OutcomeIs, Demand3};

use entry_answers::Answer;
use model::{NEST_ROOM, WORDS};
use nest_flat::FlatNest;
use ticket_refusals::Refusal;

// Judges 1 to 13, then 14. What is written is the new nest of demand 3 (model, Demands: demand-3, written-nest).
pub fn write(ticket: &[u8], out: &mut [u8]) -> Answer
    ensures { OutcomeIs (Entries.write ticket.now out.old) result out.new
        × ((store : List ℕ) → Demand3 ticket.now out.old store result) }
{
    let mut limits = [0i16; NEST_ROOM];
    let mut words = [0i16; WORDS];
    let read = ticket_decoding::decode(ticket, &mut limits, &mut words);
    let decided = ticket_judgement::decide(read, &mut limits, &mut words)?;
    let new = FlatNest {
        header: &decided.header,
        limits: &limits,
        words: &words,
    };
    match ticket_encoding::encode_flat_nest(&new, out) {
        Ok(n) => Ok(n),
        Err(_) => Err(Refusal::BufferTooShort),
    }
}
