// The run of a nest on a store, at some of its points. Its accesses are lent as the numbers of their places: access k at point x, of `count`
// points, at `count` k + x.
#![tactic(auto)]

ghost use Rattle.std.specs.Prelude.{◌≡◌, ℕ, ◌+◌, ◌*◌, ◌%◌, ◌^◌, ◌<◌, ◌≤◌, length, slice_index, slice_set};
ghost use Rattle.lists.specs.Parts.{rows};
ghost use Rattle.model.specs.Store.{sum, most, first_of, make};
ghost use Rattle.model.specs.Grammar.{most_arrays, most_points};
ghost use Rattle.nest_elements.specs.Places.{TotalIn};
ghost use Rattle.nest_flat.specs.FlatNests.{flat, nest_of};
ghost use Rattle.run_statements.specs.Flat.{number_at, fetched, performed, body_from, points_from, BasesAre, FetchIn, PointIn, BodyIn};
ghost use Rattle.run_statements.specs.Runs.{run_at, RunIn};

use model::{ARRAY_ROOM, ARRAYS};
use nest_flat::FlatNest;

// The places in the store of the accesses at `count` points.
#[derive(Clone, Copy)]
struct Places<'a> {
    numbers: &'a [u16],
    count: usize,
}

impl Places<'_> {
    // The place of access k at point x.
    fn access_place(self, k: usize, x: usize) -> usize
        requires { k * self.count + x < length self.numbers.now }
        ensures { result ≡ number_at self.entry.numbers.now self.entry.count k x }
    {
        usize::from(self.numbers[k * self.count + x])
    }

    // The word that access k reads at point x.
    fn read_word(self, store: &[u32], k: usize, x: usize) -> u32
        requires { FetchIn self.numbers.now self.count (length store.now) x k 1 }
        ensures { result ≡ slice_index store.now (number_at self.entry.numbers.now self.entry.count k x) }
    {
        store[self.access_place(k, x)]
    }

    // Rule 1: the sum modulo 2^32 of the constant and the n reads from access k on.
    fn summed(self, constant: u32, store: &[u32], k: usize, n: usize, x: usize) -> u32
        requires { FetchIn self.numbers.now self.count (length store.now) x k n }
        ensures { result ≡ (constant + sum (fetched self.entry.numbers.now self.entry.count x store.now k n)) % 2 ^ 32 }
    {
        let mut r = constant;
        for i in 0..n {
            r = r.wrapping_add(self.read_word(store, k + i, x));
        }
        r
    }

    // Rule 2: the largest of them.
    fn largest(self, constant: u32, store: &[u32], k: usize, n: usize, x: usize) -> u32
        requires { FetchIn self.numbers.now self.count (length store.now) x k n }
        ensures { result ≡ most constant (fetched self.entry.numbers.now self.entry.count x store.now k n) }
    {
        let mut r = constant;
        for i in 0..n {
            r = r.max(self.read_word(store, k + i, x));
        }
        r
    }

    // Rule 3: the first read.
    fn first(self, store: &[u32], k: usize, n: usize, x: usize) -> u32
        requires { FetchIn self.numbers.now self.count (length store.now) x k n }
        ensures { result ≡ first_of (fetched self.entry.numbers.now self.entry.count x store.now k n) }
    {
        if n == 0 {
            0
        } else {
            self.read_word(store, k, x)
        }
    }

    // What a statement stores. Rule 0 is opaque: no nest that has it is run.
    fn rule_value(
        self,
        rule: usize,
        constant: u32,
        store: &[u32],
        k: usize,
        n: usize,
        x: usize,
    ) -> u32
        requires { FetchIn self.numbers.now self.count (length store.now) x k n }
        ensures { result ≡ make rule constant (fetched self.entry.numbers.now self.entry.count x store.now k n) }
    {
        match rule {
            1 => self.summed(constant, store, k, n, x),
            2 => self.largest(constant, store, k, n, x),
            3 => self.first(store, k, n, x),
            _ => 0,
        }
    }
}

// Stores v at a place of the part of the store that belongs to an array.
fn put(part: &mut [u32], at: usize, v: u32)
    requires { at < length part.old }
    ensures { part.new ≡ slice_set part.old at v }
{
    part[at] = v;
}

// The statements of a nest, each with its size, its rule and its constant, the array of every access, and where each array begins.
#[derive(Clone, Copy)]
struct Body<'a> {
    accessed: &'a [usize],
    bases: &'a [usize],
    sizes: &'a [usize],
    rules: &'a [usize],
    constants: &'a [usize],
}

// One statement at point x: it writes access k and reads the n after it.
fn perform(
    body: &Body<'_>,
    places: Places<'_>,
    rule: usize,
    constant: u32,
    k: usize,
    n: usize,
    x: usize,
    store: &mut [u32],
)
    requires { PointIn body.now.accessed.now body.now.bases.now places.numbers.now places.count (length store.old) x
        × (k + n < length body.now.accessed.now) }
    ensures { store.new ≡ performed places.entry.numbers.now places.entry.count x rule constant k n store.old }
{
    let v = places.rule_value(rule, constant, store, k + 1, n, x);
    let base = body.bases[body.accessed[k]];
    let at = places.access_place(k, x) - base;
    put(&mut store[base..], at, v);
}

// The statements at point x, in body order.
fn perform_all(body: &Body<'_>, places: Places<'_>, x: usize, store: &mut [u32])
    requires { PointIn body.now.accessed.now body.now.bases.now places.numbers.now places.count (length store.old) x
        × BodyIn body.now.accessed.now body.now.sizes.now body.now.rules.now body.now.constants.now }
    ensures { store.new ≡ body_from body.now.rules.now body.now.constants.now places.entry.numbers.now places.entry.count x 0 0
        body.now.sizes.now store.old }
{
    let mut k = 0;
    for (i, &size) in body.sizes.iter().enumerate() {
        perform(
            body,
            places,
            body.rules[i],
            body.constants[i] as u32,
            k,
            size - 1,
            x,
            store,
        );
        k += size;
    }
}

// The points one after the other.
fn run_points(body: &Body<'_>, places: Places<'_>, store: &mut [u32])
    requires { (places.count ≤ most_points)
        × ((x : ℕ) → x < places.count → PointIn body.now.accessed.now body.now.bases.now places.numbers.now places.count (length store.old) x)
        × BodyIn body.now.accessed.now body.now.sizes.now body.now.rules.now body.now.constants.now }
    ensures { store.new ≡ points_from body.now.rules.now body.now.constants.now body.now.sizes.now places.entry.numbers.now places.entry.count
        0 places.entry.count store.old }
{
    for x in 0..places.count {
        perform_all(body, places, x, store);
    }
}

// Where each of the n arrays begins in the store.
fn bases_of(arrays: &[usize], n: usize) -> [usize; ARRAYS]
    requires { TotalIn arrays.now n × (n ≤ most_arrays) }
    ensures { BasesAre arrays.now n result }
{
    let mut r = [0; ARRAYS];
    for i in 0..n {
        r[i] = nest_elements::base_of(arrays, i);
    }
    r
}

// Runs the nest of a header at the points. Its limits, words and points are lent for the contract alone.
pub fn run_at_points(
    nest: &FlatNest,
    points: &[i64],
    count: usize,
    numbers: &[u16],
    store: &mut [u32],
)
    requires { RunIn (flat nest.now) points.now count numbers.now (length store.old) }
    ensures { store.new ≡ run_at (nest_of (flat nest.now))
        (rows (flat nest.now).depth count points.now) store.old }
{
    let arrays = nest.header.arrays;
    let extents = &nest.header.extents;
    let statements = nest.header.statements;
    let sizes = &nest.header.sizes;
    let rules = &nest.header.rules;
    let constants = &nest.header.constants;
    let accesses = nest.header.accesses;
    let accessed = &nest.header.accessed;
    let bases = bases_of(&extents[..arrays * ARRAY_ROOM], arrays);
    let body = Body {
        accessed: &accessed[..accesses],
        bases: &bases,
        sizes: &sizes[..statements],
        rules,
        constants,
    };
    run_points(&body, Places { numbers, count }, store);
}
