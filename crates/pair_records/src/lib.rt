// The records of the pairs that trade places, found source point by source point: all are counted, and those in a window are kept.
#![tactic(auto)]

ghost use Rattle.std.specs.Prelude.{◌≡◌, cond, ◌+◌, ◌*◌, ◌≤◌, ◌<◌, pos, length, get_or};
ghost use mathlib.Core.List.{◌∷◌, [], flat_map};
ghost use Rattle.lists.specs.Membership.{All};
ghost use Rattle.lists.specs.Parts.{put};
ghost use Rattle.integers.specs.Difference.{size};
ghost use Rattle.model.specs.Grammar.{ticket_loops};
ghost use Rattle.model.specs.Directions.{kinds, kind_count, flow};
ghost use Rattle.model.specs.Listing.{letter};
ghost use Rattle.model.specs.Pairs.{indices_in};
ghost use Rattle.dependence_vectors.specs.Candidates.{row};
ghost use Rattle.pair_records.specs.Conflicts.{block_count, record_room, records_between};
ghost use Rattle.pair_records.specs.Statements.{named_in, StatementAt, SpanIn, block_records};
ghost use Rattle.pair_records.specs.Windows.{batch_room, Passes};
ghost use Rattle.pair_records.specs.Walks.{records_from, Walks};
ghost use Rattle.pair_records.specs.Nests.{flat_of, ConflictIn, words_of, InstanceIn, records_at};

mod nests;

use model::{KINDS, TICKET_LOOPS};
pub use nests::LinkedNest;
use pair_partners::{LinkedAccesses, Rows};

// The records that a window keeps.
pub const BATCH: usize = 32;

// The words of a record.
pub const RECORD_ROOM: usize = 2 * TICKET_LOOPS + 3;

pub const BATCH_ROOM: usize = BATCH * RECORD_ROOM;

// How many records are still to be passed over, and how many are kept.
#[derive(Clone, Copy)]
pub struct Window {
    pub skip: usize,
    pub got: usize,
}

// What a walk found; `source` is the last source point that it came to, and `before` counts the records of those before it.
#[derive(Clone, Copy)]
pub struct Walked {
    pub window: Window,
    pub source: usize,
    pub before: usize,
}

// A source point and a sink point, and the block of two statements and a kind.
#[derive(Clone, Copy)]
pub struct Conflict {
    pub source: usize,
    pub sink: usize,
    pub block: usize,
}

// A statement at a point. Its accesses are those from `first` up to `end`, and the first of them is written.
#[derive(Clone, Copy)]
pub struct Instance {
    pub point: usize,
    pub statement: usize,
    pub first: usize,
    pub end: usize,
}

// ---- a record's words

fn to_word(x: i64) -> i16
    requires { size x ≤ 32767 }
    ensures { result ≡ x }
{
    x as i16
}

fn number_word(n: usize) -> i16
    requires { n < 128 }
    ensures { result ≡ pos n }
{
    n as i16
}

// The letter of a kind.
fn letter_word(kind: usize) -> i16
    requires { kind < kind_count }
    ensures { result ≡ pos (letter (get_or kinds kind flow)) }
{
    number_word(dependence_listing_text::letter(kind) as usize)
}

// Writes the indices of point x, with 0 for loops that are not there.
fn write_indices(nest: &LinkedNest, x: usize, found: &mut [i16], at: usize)
    requires { (x < nest.now.count) × (at + ticket_loops ≤ batch_room) × (length found.old ≡ batch_room) }
    ensures { found.new ≡ put found.old at (indices_in (row nest.now.depth nest.now.points.now x)) }
{
    let first = x * nest.depth;
    for l in 0..TICKET_LOOPS {
        if l < nest.depth {
            found[at + l] = to_word(nest.points[first + l]);
        } else {
            found[at + l] = 0;
        }
    }
}

// Writes the record of a conflict.
fn write_record(nest: &LinkedNest, conflict: Conflict, found: &mut [i16], at: usize)
    requires { ConflictIn nest.now conflict × (at + record_room ≤ batch_room) × (length found.old ≡ batch_room) }
    ensures { found.new ≡ put found.old at (words_of nest.now conflict) }
{
    let body = nest.sizes.len();
    let block = conflict.block / KINDS;
    write_indices(nest, conflict.source, found, at);
    write_indices(nest, conflict.sink, found, at + TICKET_LOOPS);
    let last = at + 2 * TICKET_LOOPS;
    found[last] = number_word(block / body + 1);
    found[last + 1] = number_word(block % body + 1);
    found[last + 2] = letter_word(conflict.block % KINDS);
}

// ---- the window

// The record of a conflict has come by.
fn pass_record(nest: &LinkedNest, conflict: Conflict, window: Window, found: &mut [i16]) -> Window
    requires { ConflictIn nest.now conflict × (length found.old ≡ batch_room) }
    ensures { Passes window found.old result found.new (words_of nest.now conflict ∷ []) }
{
    if 0 < window.skip {
        return Window {
            skip: window.skip - 1,
            got: window.got,
        };
    }
    let got = window.got;
    if BATCH <= got {
        return window;
    }
    write_record(nest, conflict, found, got * RECORD_ROOM);
    Window {
        skip: 0,
        got: got + 1,
    }
}

// The record of a conflict has come by, if it is one.
fn pass_if(
    nest: &LinkedNest,
    conflict: Conflict,
    there: bool,
    window: Window,
    found: &mut [i16],
) -> Window
    requires { ConflictIn nest.now conflict × (length found.old ≡ batch_room) }
    ensures { Passes window found.old result found.new (cond there (words_of nest.now conflict ∷ []) []) }
{
    if there {
        return pass_record(nest, conflict, window, found);
    }
    window
}

// ---- the conflicts of two points

// Whether an access from `from` up to `end` names element e at point x.
fn names(nest: &LinkedNest, from: usize, end: usize, x: usize, e: u16) -> bool
    requires { SpanIn nest.now.count nest.now.numbers.now from end × (end ≤ nest.now.accesses)
        × (x < nest.now.count) }
    ensures { result ≡ named_in nest.now.count nest.now.numbers.now from end x e }
{
    for k in from..end {
        if nest.number(k, x) == e {
            return true;
        }
    }
    false
}

// All records of two statements, each at a point.
fn pass_statements(
    nest: &LinkedNest,
    source: Instance,
    sink: Instance,
    window: Window,
    found: &mut [i16],
) -> Window
    requires { InstanceIn nest.now source × InstanceIn nest.now sink × (length found.old ≡ batch_room) }
    ensures { Passes window found.old result found.new (records_at nest.now source sink) }
{
    let written = nest.number(source.first, source.point);
    let also_written = nest.number(sink.first, sink.point);
    let flow = names(nest, sink.first + 1, sink.end, sink.point, written);
    let anti = names(
        nest,
        source.first + 1,
        source.end,
        source.point,
        also_written,
    );
    let output = written == also_written;
    let block = (source.statement * nest.sizes.len() + sink.statement) * KINDS;
    let x = source.point;
    let y = sink.point;
    let first = Conflict {
        source: x,
        sink: y,
        block,
    };
    let second = Conflict {
        block: block + 1,
        ..first
    };
    let third = Conflict {
        block: block + 2,
        ..first
    };
    let w = pass_if(nest, first, flow, window, found);
    let v = pass_if(nest, second, anti, w, found);
    pass_if(nest, third, output, v, found)
}

// All records of a statement at a point with every statement at point y.
fn pass_sinks(
    nest: &LinkedNest,
    source: Instance,
    y: usize,
    window: Window,
    found: &mut [i16],
) -> Window
    requires { InstanceIn nest.now source × (y < nest.now.count) × (length found.old ≡ batch_room) }
    ensures { Passes window found.old result found.new (block_records (flat_of nest.now) source.point y
        (source.statement * length nest.now.sizes.now * kind_count) (length nest.now.sizes.now * kind_count)) }
{
    let mut w = window;
    let mut b = 0;
    for t in 0..nest.sizes.len() {
        let end = b + nest.sizes[t];
        let sink = Instance {
            point: y,
            statement: t,
            first: b,
            end,
        };
        w = pass_statements(nest, source, sink, w, found);
        b = end;
    }
    w
}

// All records of the points x and y.
fn pass_pair(nest: &LinkedNest, x: usize, y: usize, window: Window, found: &mut [i16]) -> Window
    requires { (x < nest.now.count) × (y < nest.now.count) × (length found.old ≡ batch_room) }
    ensures { Passes window found.old result found.new (records_between (flat_of nest.now) x y) }
{
    let mut w = window;
    let mut a = 0;
    for s in 0..nest.sizes.len() {
        let end = a + nest.sizes[s];
        let source = Instance {
            point: x,
            statement: s,
            first: a,
            end,
        };
        w = pass_sinks(nest, source, y, w, found);
        a = end;
    }
    w
}

// ---- the walk

// All records of source point x, whose partners are lent.
fn pass_partners(
    nest: &LinkedNest,
    x: usize,
    partners: &[u16],
    window: Window,
    found: &mut [i16],
) -> Window
    requires { (x < nest.now.count) × All (λ y. y < nest.now.count) partners.now
        × (length found.old ≡ batch_room) }
    ensures { Passes window found.old result found.new (flat_map (records_between (flat_of nest.now) x) partners.now) }
{
    let mut w = window;
    for i in 0..partners.len() {
        w = pass_pair(nest, x, usize::from(partners[i]), w, found);
    }
    w
}

// All records of source point x. Lent is room for its partners.
fn pass_source(
    nest: &LinkedNest,
    x: usize,
    window: Window,
    partners: &mut [u16],
    found: &mut [i16],
) -> Window
    requires { (x < nest.now.count) × (nest.now.count ≤ length partners.old)
        × (length found.old ≡ batch_room) }
    ensures { Passes window found.old result found.new (records_from (flat_of nest.now) nest.now.moved_depth nest.now.moved.now x) }
{
    let tables = LinkedAccesses {
        numbers: nest.numbers,
        writes: nest.writes,
        count: nest.count,
        accesses: nest.accesses,
        named: nest.named,
        written: nest.written,
    };
    let moved = Rows {
        numbers: nest.moved,
        depth: nest.moved_depth,
        count: nest.count,
    };
    let m = pair_partners::find_partners(&tables, &moved, x, partners);
    pass_partners(nest, x, &partners[..m], window, found)
}

// Walks from source point `from` on, past `skip` records, until the window is full.
pub fn walk(
    nest: &LinkedNest,
    from: usize,
    skip: usize,
    partners: &mut [u16],
    found: &mut [i16],
) -> Walked
    requires { (from ≤ nest.now.count) × (nest.now.count ≤ length partners.old)
        × (length found.old ≡ batch_room) }
    ensures { Walks (flat_of nest.now) nest.now.moved_depth nest.now.moved.now from skip result found.new }
{
    let mut w = Window { skip, got: 0 };
    let mut source = from;
    let mut before = 0;
    for x in from..nest.count {
        if BATCH <= w.got {
            break;
        }
        source = x;
        before = skip - w.skip + w.got;
        w = pass_source(nest, x, w, partners, found);
    }
    Walked {
        window: w,
        source,
        before,
    }
}
