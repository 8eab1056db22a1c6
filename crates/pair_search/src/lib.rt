// The records of the pairs that trade places at a step, found in a ticket's flat form: its points are listed, moved by the steps, numbered by the
// elements that they name and linked; then a walk goes through the source points.
#![tactic(auto)]

ghost use Rattle.std.specs.Prelude.{◌≡◌, true, ◌≤◌, ◌<◌, length, take};
ghost use Rattle.nest_flat.specs.FlatNests.{flat, nest_of, FlatNestIn};
ghost use Rattle.ticket_steps.specs.Steps.{steps_of};
ghost use Rattle.pair_search.specs.Searches.{SearchIn, Searched};
ghost use Rattle.pair_search.specs.Rooms.{Few, RoomFor};
ghost use Rattle.pair_search.specs.PairSearches.{nest_in, Asks, Finds};

use model::{ELEMENTS, LOOPS, NUMBERS, POINTS, TICKET_LOOPS};
use nest_flat::{FlatNest, Header};
use pair_partners::NumberedAccesses;
use pair_records::{LinkedNest, Walked};
use ticket_steps::Steps;

// What is searched: a ticket of so many points, after its first `step` steps, from source point `from` on and past `skip` records.
#[derive(Clone, Copy)]
struct PairSearch<'a> {
    header: Header,
    limits: &'a [i16],
    words: &'a [i16],
    steps: Steps,
    count: usize,
    step: usize,
    from: usize,
    skip: usize,
}

// The few points for which there is room apart, their indices before and after the steps, and the elements and numbers of elements at the points.
const FEW_POINTS: usize = 256;

const FEW_INDICES: usize = TICKET_LOOPS * FEW_POINTS;

const FEW_MOVED: usize = LOOPS * FEW_POINTS;

const FEW_NUMBERS: usize = 1024;

// The same of the most points.
const INDICES: usize = TICKET_LOOPS * POINTS;

const MOVED: usize = LOOPS * POINTS;

// Searches with room for so many points, indices before and after the steps, numbers of elements, and elements. In a frame of its own, so that few
// points do not pass through the room of many.
#[inline(never)]
fn search_in_room<
    const MOST_POINTS: usize,
    const MOST_INDICES: usize,
    const MOST_MOVED: usize,
    const MOST_NUMBERS: usize,
    const MOST_ELEMENTS: usize,
>(search: &PairSearch, found: &mut [i16]) -> Walked
    requires { Asks search.now found.old
        × RoomFor (nest_in search.now) search.now.count MOST_POINTS MOST_INDICES MOST_MOVED MOST_NUMBERS MOST_ELEMENTS }
    ensures { Finds search.now result found.new }
{
    let header = search.header;
    let nest = FlatNest {
        header: &header,
        limits: search.limits,
        words: search.words,
    };
    let count = search.count;
    let accesses = header.accesses;
    let mut points = [0i64; MOST_INDICES];
    nest_points::list_points(&nest, &mut points);
    let mut moved = [0i64; MOST_MOVED];
    let depth = step_points::move_points(
        &points,
        header.depth,
        count,
        search.steps,
        search.step,
        &mut moved,
    );
    let mut numbers = [0u16; MOST_NUMBERS];
    nest_elements::number_accesses(&nest, &points, count, &mut numbers);
    let uses = dependence_marks::uses_of(&nest);
    let writes = uses.writes;
    let numbered = NumberedAccesses {
        numbers: &numbers,
        writes: &writes[..accesses],
        count,
        accesses,
    };
    let mut heads = [0u16; MOST_ELEMENTS];
    let mut named = [0u16; MOST_NUMBERS];
    let mut written = [0u16; MOST_NUMBERS];
    pair_partners::link_all(&numbered, &mut heads, &mut named, &mut written);
    let mut partners = [0u16; MOST_POINTS];
    let sizes = header.sizes;
    let statements = header.statements;
    let linked = LinkedNest {
        points: &points,
        depth: header.depth,
        count,
        sizes: &sizes[..statements],
        accesses,
        numbers: &numbers,
        writes: &writes[..accesses],
        named: &named,
        written: &written,
        moved: &moved,
        moved_depth: depth,
    };
    pair_records::walk(&linked, search.from, search.skip, &mut partners, found)
}

// Whether the room for few points is enough.
fn is_few(nest: &FlatNest, count: usize) -> bool
    requires { FlatNestIn (flat nest.now) }
    ensures { result ≡ true → Few (flat nest.now) count }
{
    if FEW_POINTS < count {
        return false;
    }
    if FEW_NUMBERS < nest.header.accesses * count {
        return false;
    }
    nest_elements::elements_in(nest) <= FEW_NUMBERS
}

// Searches for the pairs that trade places after the first `step` steps, from source point `from` on and past `skip` records.
pub fn search_pairs(
    nest: &FlatNest,
    steps: Steps,
    count: usize,
    step: usize,
    from: usize,
    skip: usize,
    found: &mut [i16],
) -> Walked
    requires { SearchIn (flat nest.now) steps count step from found.old }
    ensures { Searched (take step (steps_of steps)) (nest_of (flat nest.now)) from skip result
        found.new }
{
    let search = PairSearch {
        header: *nest.header,
        limits: nest.limits,
        words: nest.words,
        steps,
        count,
        step,
        from,
        skip,
    };
    if is_few(nest, count) {
        return search_in_room::<FEW_POINTS, FEW_INDICES, FEW_MOVED, FEW_NUMBERS, FEW_NUMBERS>(
            &search, found,
        );
    }
    search_in_room::<POINTS, INDICES, MOVED, NUMBERS, ELEMENTS>(&search, found)
}
