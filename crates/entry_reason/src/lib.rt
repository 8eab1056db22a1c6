// The reason tool: which pairs of instances trade places at a step that is refused as out of order. A finder gives their records one by one,
// by value; it keeps those that it found last, and looks for more when they are given.
#![tactic(auto)]

ghost use Rattle.std.specs.Prelude.{◌≡◌, ℕ, ◌-◌, ◌+◌, ◌≤◌, ◌<◌, min, pos, length};
ghost use Rattle.model.specs.Entries.{judge};
ghost use Rattle.model.specs.Pairs.{Record};
ghost use Rattle.ticket_refusals.specs.Refusals.{refusal, answer_of};
ghost use Rattle.entry_packing.specs.Packed.{packed};
ghost use Rattle.pair_records.specs.Windows.{batch_room};
ghost use Rattle.entry_reason.specs.Records.{pair_of, found_in};
ghost use Rattle.entry_reason.specs.Finders.{TenAt, SearchFrom, SearchedAt, RecordAt, Finding, Ready, Begun, Refilled, gave, Given, no_pair};

use entry_answers::Answer;
use model::{NEST_ROOM, TICKET_LOOPS, WORDS};
use nest_flat::FlatNest;
use pair_records::{BATCH_ROOM, RECORD_ROOM, Walked, Window};
use ticket_refusals::Refusal;

// A pair of instances that trades places: both iterations in the ticket's own indices, with 0 for loops that are not there; both statements, from 1;
// the kind's letter. It has 22 bytes, and none between its fields.
#[repr(C)]
#[derive(Clone, Copy)]
pub struct Pair {
    pub source: [i16; TICKET_LOOPS],
    pub sink: [i16; TICKET_LOOPS],
    pub source_statement: u16,
    pub sink_statement: u16,
    pub kind: u16,
}

// The tool's answer, how many records are asked for, how many were given and the last of these. Then what it goes on from: the refused step, a source
// point and how many records those before it have, and the words of `got` records from record `first` on.
#[derive(Clone, Copy)]
pub struct Finder {
    pub answer: u64,
    pub most: usize,
    pub given: usize,
    pub pair: Pair,
    pub step: usize,
    pub source: usize,
    pub before: usize,
    pub first: usize,
    pub got: usize,
    pub words: [i16; BATCH_ROOM],
}

// More than there are records.
const ALL: usize = 4294967296;

fn no_pair() -> Pair
    ensures { result ≡ no_pair }
{
    Pair {
        source: [0i16; TICKET_LOOPS],
        sink: [0i16; TICKET_LOOPS],
        source_statement: 0,
        sink_statement: 0,
        kind: 0,
    }
}

// ---- the search

fn nothing_found() -> Walked {
    Walked {
        window: Window { skip: 0, got: 0 },
        source: 0,
        before: 0,
    }
}

// Walks through the pairs that trade places at a step which is refused with 10, from source point `from` on.
fn search_ticket(ticket: &[u8], step: usize, from: usize, skip: usize, found: &mut [i16]) -> Walked
    requires { SearchFrom ticket.now step from × (length found.old ≡ batch_room) }
    ensures { (t : TenAt ticket.now step) → SearchedAt t from skip result found.new }
{
    let mut limits = [0i16; NEST_ROOM];
    let mut words = [0i16; WORDS];
    let read = ticket_decoding::decode(ticket, &mut limits, &mut words);
    let Ok(decoded) = read else {
        return nothing_found();
    };
    let Ok(count) = ticket_admission::count_ticket_points(read, &limits, &words) else {
        return nothing_found();
    };
    let nest = FlatNest {
        header: &decoded.header,
        limits: &limits,
        words: &words,
    };
    pair_search::search_pairs(&nest, decoded.steps, count, step, from, skip, found)
}

// ---- the finder

// Of a ticket that is refused with 10 at this step.
fn begin_search(ticket: &[u8], step: usize, lent: usize) -> Finder
    requires { TenAt ticket.now step }
    ensures { Begun ticket.now lent result }
{
    let mut words = [0i16; BATCH_ROOM];
    let walked = search_ticket(ticket, step, 0, ALL, &mut words);
    let window = walked.window;
    let count = ALL - window.skip;
    let pair = no_pair();
    Finder {
        answer: entry_packing::pack(0, step, count),
        most: count.min(lent),
        given: 0,
        pair,
        step,
        source: 0,
        before: 0,
        first: 0,
        got: 0,
        words,
    }
}

// Of any other: there is nothing to find.
fn without_pairs(answer: Answer) -> Finder
    ensures { (result.answer ≡ packed (answer_of answer)) × (result.most ≡ 0) × (result.given ≡ 0) }
{
    let pair = no_pair();
    let words = [0i16; BATCH_ROOM];
    Finder {
        answer: entry_packing::pack_answer(answer),
        most: 0,
        given: 0,
        pair,
        step: 0,
        source: 0,
        before: 0,
        first: 0,
        got: 0,
        words,
    }
}

// Of any refused ticket.
fn begin_refused(ticket: &[u8], r: Refusal, lent: usize) -> Finder
    requires { judge ticket.now ≡ refusal r }
    ensures { Begun ticket.now lent result }
{
    if r.number() == 10 {
        return begin_search(ticket, r.place(), lent);
    }
    without_pairs(Err(r))
}

// Before the first record, for a list of so many.
pub fn begin(ticket: &[u8], lent: usize) -> Finder
    ensures { Begun ticket.now lent result }
{
    match entry_judge::judge(ticket) {
        Ok(n) => without_pairs(Ok(n)),
        Err(r) => begin_refused(ticket, r, lent),
    }
}

// Looks for the records from the next one on.
fn find_more(ticket: &[u8], f: Finder) -> Finder
    requires { Finding ticket.now f × (f.first + f.got ≤ f.given) × (f.given < length (found_in ticket.now)) }
    ensures { Refilled ticket.now f result }
{
    let mut words = [0i16; BATCH_ROOM];
    let walked = search_ticket(ticket, f.step, f.source, f.given - f.before, &mut words);
    let window = walked.window;
    Finder {
        source: walked.source,
        before: f.before + walked.before,
        first: f.given,
        got: window.got,
        words,
        ..f
    }
}

fn unsigned(x: i16) -> u16
    requires { (n : ℕ) × (x ≡ pos n) }
    ensures { pos result ≡ x }
{
    x as u16
}

// The record in row k of the words.
fn pair_at(words: &[i16], k: usize) -> Pair
    requires { (r : Record) × RecordAt words.now k r }
    ensures { (r : Record) → RecordAt words.now k r → result ≡ pair_of r }
{
    let at = k * RECORD_ROOM;
    let source = [words[at], words[at + 1], words[at + 2], words[at + 3]];
    let sink = [words[at + 4], words[at + 5], words[at + 6], words[at + 7]];
    Pair {
        source,
        sink,
        source_statement: unsigned(words[at + 8]),
        sink_statement: unsigned(words[at + 9]),
        kind: unsigned(words[at + 10]),
    }
}

// The next record, which is among the words.
fn give(f: Finder) -> Finder
    requires { ((r : Record) × RecordAt f.words (f.given - f.first) r) × (f.first ≤ f.given) × (f.given < 4294967296) }
    ensures { (r : Record) → RecordAt f.words (f.given - f.first) r → result ≡ gave f (pair_of r) }
{
    let words = f.words;
    let pair = pair_at(&words, f.given - f.first);
    Finder {
        given: f.given + 1,
        pair,
        ..f
    }
}

// One record more.
pub fn next(ticket: &[u8], f: Finder) -> Finder
    requires { Ready ticket.now f × (f.given < length (found_in ticket.now)) }
    ensures { Given ticket.now f result }
{
    if f.first + f.got <= f.given {
        let g = find_more(ticket, f);
        return give(g);
    }
    give(f)
}
