// From any byte slice to a ticket in its flat form, or the first refusal.
#![tactic(auto)]

ghost use Rattle.model.specs.Grammar as Grammar;
ghost use Rattle.ticket_decoding.specs.Ticket.{Lent, Decodes};

use model::{ARRAY_ROOM, EXTENTS, SIDES};
use nest_flat::Header;
use ticket_refusals::Refusal;
use ticket_statements::StatementsRead;
use ticket_statements::accesses::Nest;
use ticket_steps::Steps;
use ticket_words::Words;

// A ticket; its limits and the words of its accesses stand in the slices that were lent.
#[derive(Clone, Copy)]
pub struct Decoded {
    pub steps: Steps,
    pub header: Header,
}

// The four sections and nothing after them.
pub fn decode(bytes: &[u8], limits: &mut [i16], words: &mut [i16]) -> Result<Decoded, Refusal>
    requires { Lent limits.old words.old }
    ensures { Decodes (Grammar.decode bytes.now) result limits.new words.new }
{
    let mut ticket = Words::new(bytes);
    let mut counts = [0usize; SIDES];
    let depth = ticket_loops::read_loops(&mut ticket, limits, &mut counts)?;
    let mut extents = [0usize; EXTENTS];
    let arrays = ticket_arrays::read_arrays(&mut ticket, &mut extents)?;
    let nest = Nest {
        depth,
        extents: &extents[..arrays * ARRAY_ROOM],
    };
    let StatementsRead {
        count: statements,
        sizes,
        rules,
        constants,
        accesses,
        accessed,
    } = ticket_statements::read_statements(&mut ticket, nest, words)?;
    let steps = ticket_steps::read_steps(&mut ticket, depth)?;
    if (ticket.next - 1) * 2 < bytes.len() {
        return Err(Refusal::TrailingBytes(ticket.next));
    }
    let header = Header {
        depth,
        counts,
        arrays,
        extents,
        statements,
        sizes,
        rules,
        constants,
        accesses,
        accessed,
    };
    Ok(Decoded { steps, header })
}
