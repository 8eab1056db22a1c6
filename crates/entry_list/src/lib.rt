// The entry `list`: the listing of a ticket's directions.
#![tactic(auto)]

ghost use Rattle.std.specs.Prelude.{◌≤◌};
ghost use Rattle.model.specs.Grammar.{most_statements};
ghost use Rattle.model.specs.Answer.{accepted};
ghost use Rattle.model.specs.Entries as Entries;
ghost use Rattle.model.specs.Listing.{listing};
ghost use Rattle.nest_flat.specs.FlatNests.{flat, nest_of};
ghost use Rattle.nest_admission.specs.Admission.{PointsCounted};
ghost use Rattle.ticket_decoding.specs.Ticket.{DecodedIn, ticket_of};
ghost use Rattle.entry_answers.specs.Answers.{OutcomeIs};
ghost use Rattle.dependence_vectors.specs.Numbers.{marks_for};
ghost use Rattle.dependence_directions.specs.SearchResults.{FindIn};
ghost use Rattle.entry_list.specs.Listable.{Listable, FoundIn, list_nest};

use entry_answers::Answer;
use model::{MARKS, NEST_ROOM, PAIR_MARKS, WORDS};
use nest_flat::FlatNest;
use ticket_decoding::Decoded;
use ticket_refusals::Refusal;

// Writes the listing of a nest from the marks of its lines.
fn write_marked(nest: &FlatNest, count: usize, marks: &[bool], out: &mut [u8]) -> Answer
    requires { Listable (flat nest.now) count marks.now }
    ensures { OutcomeIs (Entries.hand_out (accepted (listing (nest_of (flat nest.now)))) out.old) result
        out.new }
{
    match dependence_listing_text::write_listing(
        marks,
        nest.header.statements,
        nest.header.depth,
        count,
        out,
    ) {
        Some(n) => Ok(n),
        None => Err(Refusal::BufferTooShort),
    }
}

// The same, where refusal 9 is passed.
fn write_admitted(
    nest: &FlatNest,
    count: usize,
    found: Result<(), Refusal>,
    marks: &[bool],
    out: &mut [u8],
) -> Answer
    requires { FoundIn (flat nest.now) count found marks.now }
    ensures { OutcomeIs (list_nest (nest_of (flat nest.now)) out.old) result out.new }
{
    found?;
    write_marked(nest, count, marks, out)
}

// Refusal 9 of a nest, then its listing. Lent are marks, all clear.
fn list_using_marks(nest: &FlatNest, count: usize, marks: &mut [bool], out: &mut [u8]) -> Answer
    requires { FindIn (flat nest.now) count marks.old }
    ensures { OutcomeIs (list_nest (nest_of (flat nest.now)) out.old) result out.new }
{
    if count <= 256 {
        let few = dependence_directions::find_few(nest, count, marks);
        return write_admitted(nest, count, few, marks, out);
    }
    if dependence_bounds::mark_lines(nest, marks) {
        return write_admitted(nest, count, Ok(()), marks, out);
    }
    let many = dependence_directions::find_many(nest, marks);
    write_admitted(nest, count, many, marks, out)
}

// The marks of two statements.
const TWO_STATEMENT_MARKS: usize = 2 * 2 * PAIR_MARKS;

// The same with room for so many marks. Few statements have fewer marks to clear.
fn list_in_room<const ROOM: usize>(nest: &FlatNest, count: usize, out: &mut [u8]) -> Answer
    requires { PointsCounted (flat nest.now) count × (marks_for (flat nest.now).statements ≤ ROOM)
        × (ROOM ≤ marks_for most_statements) }
    ensures { OutcomeIs (list_nest (nest_of (flat nest.now)) out.old) result out.new }
{
    let mut marks = [false; ROOM];
    list_using_marks(nest, count, &mut marks, out)
}

fn list_nest(nest: &FlatNest, count: usize, out: &mut [u8]) -> Answer
    requires { PointsCounted (flat nest.now) count }
    ensures { OutcomeIs (list_nest (nest_of (flat nest.now)) out.old) result out.new }
{
    if nest.header.statements <= 2 {
        return list_in_room::<TWO_STATEMENT_MARKS>(nest, count, out);
    }
    list_in_room::<MARKS>(nest, count, out)
}

// Of a decoded ticket.
pub fn list_decoded(
    read: Result<Decoded, Refusal>,
    limits: &[i16],
    words: &[i16],
    out: &mut [u8],
) -> Answer
    requires { DecodedIn read limits.now words.now }
    ensures { OutcomeIs (Entries.list_of (ticket_of read limits.now words.now) out.old) result out.new }
{
    let ticket = read?;
    let count = ticket_admission::count_ticket_points(read, limits, words)?;
    let nest = FlatNest {
        header: &ticket.header,
        limits,
        words,
    };
    list_nest(&nest, count, out)
}

// Judges 1 to 9, then 14. The lines are exactly the dependences of the nest, each once (model, Demands: line-exact, lines-once-in-order).
pub fn list(ticket: &[u8], out: &mut [u8]) -> Answer
    ensures { OutcomeIs (Entries.list ticket.now out.old) result out.new }
{
    let mut limits = [0i16; NEST_ROOM];
    let mut words = [0i16; WORDS];
    let read = ticket_decoding::decode(ticket, &mut limits, &mut words);
    list_decoded(read, &limits, &words, out)
}
