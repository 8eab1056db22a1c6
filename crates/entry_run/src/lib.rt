// The entry `run`: the nest of a ticket in its new order, on a store.
#![tactic(auto)]

ghost use Rattle.std.specs.Prelude.{List, ℕ};
ghost use Rattle.model.specs.Entries as Entries;
ghost use Rattle.entry_answers.specs.Answers.{OutcomeIs, Demand3};

use entry_answers::Answer;
use model::{NEST_ROOM, WORDS};
use nest_flat::FlatNest;

// Judges 1 to 13, then 15 and 16. An accepted run leaves the store that the old order leaves (model, Demands: demand-3, run-store).
pub fn run(ticket: &[u8], store: &mut [u32]) -> Answer
    ensures { OutcomeIs (Entries.run_entry ticket.now store.old) result store.new
        × ((buffer : List ℕ) → Demand3 ticket.now buffer store.old result) }
{
    let mut limits = [0i16; NEST_ROOM];
    let mut words = [0i16; WORDS];
    let read = ticket_decoding::decode(ticket, &mut limits, &mut words);
    let decided = ticket_judgement::decide(read, &mut limits, &mut words)?;
    let new = FlatNest {
        header: &decided.header,
        limits: &limits,
        words: &words,
    };
    run_ticket::run_judged(decided.opaque, decided.elements, &new, decided.count, store)
}
