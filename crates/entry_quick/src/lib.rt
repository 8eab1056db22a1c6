// The entry `quick`: whether two accesses of a ticket are apart.
#![tactic(auto)]

ghost use Rattle.std.specs.Prelude.{◌≡◌, ◌&&◌, leb};
ghost use Rattle.model.specs.Entries as Entries;
ghost use Rattle.nest_flat.specs.FlatNests.{flat, nest_of, FlatNestIn};
ghost use Rattle.nest_admission.specs.Admission.{PointsCounted};
ghost use Rattle.ticket_decoding.specs.Ticket.{DecodedIn, ticket_of};
ghost use Rattle.entry_quick.specs.Answers.{answer_of, tested, test_nest};

use model::{NEST_ROOM, WORDS};
use nest_flat::FlatNest;
use ticket_decoding::Decoded;
use ticket_refusals::Refusal;

// Whether two accesses never meet, or may.
#[derive(Clone, Copy)]
pub enum Meeting {
    Apart,
    Perhaps,
}

fn is_access(n: usize, accesses: usize) -> bool
    ensures { result ≡ (leb 1 n && leb n accesses) }
{
    1 <= n && n <= accesses
}

// The access numbers, from 1, then the test.
fn test(nest: &FlatNest, first: usize, second: usize) -> Result<Meeting, Refusal>
    requires { FlatNestIn (flat nest.now) }
    ensures { answer_of result ≡ tested (nest_of (flat nest.now)) first second }
{
    if !is_access(first, nest.header.accesses) {
        return Err(Refusal::WordOutOfRange(0));
    }
    if !is_access(second, nest.header.accesses) {
        return Err(Refusal::WordOutOfRange(0));
    }
    if nest_quick_test::is_apart(nest, first - 1, second - 1) {
        return Ok(Meeting::Apart);
    }
    Ok(Meeting::Perhaps)
}

// Refusal 9 of a nest of so many points, then the test.
fn test_nest(nest: &FlatNest, count: usize, first: usize, second: usize) -> Result<Meeting, Refusal>
    requires { PointsCounted (flat nest.now) count }
    ensures { answer_of result ≡ test_nest (nest_of (flat nest.now)) first second }
{
    nest_admission::admit(nest, count)?;
    test(nest, first, second)
}

// Of a decoded ticket.
pub fn quick_decoded(
    read: Result<Decoded, Refusal>,
    limits: &[i16],
    words: &[i16],
    first: usize,
    second: usize,
) -> Result<Meeting, Refusal>
    requires { DecodedIn read limits.now words.now }
    ensures { answer_of result ≡ Entries.quick_of (ticket_of read limits.now words.now) first second }
{
    let ticket = read?;
    let count = ticket_admission::count_ticket_points(read, limits, words)?;
    let nest = FlatNest {
        header: &ticket.header,
        limits,
        words,
    };
    test_nest(&nest, count, first, second)
}

// Judges 1 to 9, then the two access numbers, from 1. 'Apart' means that the two accesses never meet (model, Demands: apart-never-meet).
pub fn quick(ticket: &[u8], first: usize, second: usize) -> Result<Meeting, Refusal>
    ensures { answer_of result ≡ Entries.quick ticket.now first second }
{
    let mut limits = [0i16; NEST_ROOM];
    let mut words = [0i16; WORDS];
    let read = ticket_decoding::decode(ticket, &mut limits, &mut words);
    quick_decoded(read, &limits, &words, first, second)
}
