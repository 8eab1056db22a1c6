// A decoded ticket judged: refusals 1 to 13, then all that the entries ask of it.
#![tactic(auto)]

ghost use Rattle.ticket_decoding.specs.Ticket.{ticket_of, DecodedIn};
ghost use Rattle.nest_flat.specs.FlatNests.{flat_nest};
ghost use Rattle.ticket_admission.specs.CountedTickets.{Laid};
ghost use Rattle.ticket_judgement.specs.Verdicts.{Decides, DecidesOn};

use model::VECTORS;
use nest_flat::{FlatNest, Header};
use step_directions::DirectionSet;
use ticket_decoding::Decoded;
use ticket_refusals::Refusal;
use ticket_steps::Steps;

// Of the ticket's own nest: how many iterations it has, its first opaque statement, from 1, and how many elements. Of the new nest: its header and
// its directions; its limits and the words of its accesses stand in the slices that were lent.
#[derive(Clone, Copy)]
pub struct Decided {
    pub count: usize,
    pub opaque: Option<usize>,
    pub elements: usize,
    pub header: Header,
    pub directions: DirectionSet,
}

// Refusals 9 to 13 of a ticket of so many points. What is asked of its own nest is found before the steps are taken where it stands.
fn decide_admitted(
    header: Header,
    limits: &mut [i16],
    words: &mut [i16],
    steps: Steps,
    count: usize,
) -> Result<Decided, Refusal>
    requires { Laid (flat_nest header limits.old words.old) steps count }
    ensures { DecidesOn (flat_nest header limits.old words.old) steps result limits.new words.new }
{
    let mut marks = [false; VECTORS];
    let nest = FlatNest {
        header: &header,
        limits,
        words,
    };
    dependence_directions::find_directions(&nest, count, &mut marks)?;
    let opaque = nest_elements::first_opaque(&nest);
    let elements = nest_elements::elements_in(&nest);
    let set = DirectionSet {
        marks,
        depth: header.depth,
    };
    let judged = step_judgement::judge_ticket(header, limits, words, steps, set)?;
    Ok(Decided {
        count,
        opaque,
        elements,
        header: judged.header,
        directions: judged.directions,
    })
}

pub fn decide(
    read: Result<Decoded, Refusal>,
    limits: &mut [i16],
    words: &mut [i16],
) -> Result<Decided, Refusal>
    requires { DecodedIn read limits.old words.old }
    ensures { Decides (ticket_of read limits.old words.old) result limits.new words.new }
{
    let ticket = read?;
    let count = ticket_admission::count_ticket_points(read, limits, words)?;
    decide_admitted(ticket.header, limits, words, ticket.steps, count)
}
