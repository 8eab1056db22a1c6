// The run of an accepted ticket: refusals 15 and 16, then the new nest on the store.
#![tactic(auto)]

ghost use Rattle.nest_flat.specs.FlatNests.{flat, nest_of};
ghost use Rattle.entry_answers.specs.Answers.{OutcomeIs};
ghost use Rattle.run_ticket.specs.Outcomes.{RunIn, tested, outcome};

use entry_answers::Answer;
use nest_flat::FlatNest;
use ticket_refusals::Refusal;

// Refusals 15 and 16 by what was found on the ticket's own flat nest before its steps were taken there: its first opaque statement, from 1, and the
// number of its elements. Then the run on the flat nest of its new nest.
pub fn run_judged(
    opaque: Option<usize>,
    elements: usize,
    nest: &FlatNest,
    count: usize,
    store: &mut [u32],
) -> Answer
    requires { RunIn elements (flat nest.now) count }
    ensures { OutcomeIs (outcome (tested opaque elements store.old) count
        (nest_of (flat nest.now)) store.old) result store.new }
{
    if let Some(statement) = opaque {
        return Err(Refusal::OpaqueRule(statement));
    }
    if store.len() != elements {
        return Err(Refusal::WrongStoreLength);
    }
    run_nest::execute(nest, count, store);
    Ok(count)
}
