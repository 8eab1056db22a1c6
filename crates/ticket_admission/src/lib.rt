// The points of a decoded ticket, counted; or the first refusal of 1 to 8.
#![tactic(auto)]

ghost use Rattle.ticket_decoding.specs.Ticket.{DecodedIn};
ghost use Rattle.ticket_admission.specs.CountedTickets.{Counts};

use nest_flat::FlatNest;
use ticket_decoding::Decoded;
use ticket_refusals::Refusal;

pub fn count_ticket_points(
    read: Result<Decoded, Refusal>,
    limits: &[i16],
    words: &[i16],
) -> Result<usize, Refusal>
    requires { DecodedIn read limits.now words.now }
    ensures { Counts read limits.now words.now result }
{
    let ticket = read?;
    let nest = FlatNest {
        header: &ticket.header,
        limits,
        words,
    };
    nest_admission::count_points(&nest)
}
