// Which points conflict with a point, along chains of points by element; and which of them come before it in another order.
#![tactic(auto)]

ghost use Rattle.std.specs.Prelude.{◌≡◌, false, cond, ◌||◌, ℕ, suc, ◌+◌, ◌*◌, ◌≤◌, ◌<◌, length, get_or, take};
ghost use Rattle.model.specs.Grammar.{most_points, most_accesses};
ghost use Rattle.pair_partners.specs.Chains.{number_at, names, TableIn, Numbered, LinkedFrom, Links};
ghost use Rattle.pair_partners.specs.Partners.{partners, ChainsAt, Least, RowsOf, row_before};

use model::ACCESSES;

// The number of the element that each access names at each of `count` points, one access after the other, and whether the access writes.
#[derive(Clone, Copy)]
pub struct NumberedAccesses<'a> {
    pub numbers: &'a [u16],
    pub writes: &'a [bool],
    pub count: usize,
    pub accesses: usize,
    ghost table: { TableIn numbers.now writes.now count accesses },
}

impl NumberedAccesses<'_> {
    // The number of the element that access k names at point x.
    fn number(&self, k: usize, x: usize) -> u16
        requires { (k < self.now.accesses) × (x < self.now.count) }
        ensures { result ≡ number_at self.now.numbers.now self.now.count k x }
    {
        self.numbers[k * self.count + x]
    }
}

// The same with two tables of links: from each access of a point to the next point that names its element, and to the next that writes it.
#[derive(Clone, Copy)]
pub struct LinkedAccesses<'a> {
    pub numbers: &'a [u16],
    pub writes: &'a [bool],
    pub count: usize,
    pub accesses: usize,
    pub named: &'a [u16],
    pub written: &'a [u16],
    ghost links: { Links numbers.now writes.now count accesses named.now written.now },
}

impl LinkedAccesses<'_> {
    // The number of the element that access k names at point x.
    fn number(&self, k: usize, x: usize) -> u16
        requires { (k < self.now.accesses) × (x < self.now.count) }
        ensures { result ≡ number_at self.now.numbers.now self.now.count k x }
    {
        self.numbers[x + k * self.count]
    }
}

// Of each of `count` points a row of `depth` numbers.
#[derive(Clone, Copy)]
pub struct Rows<'a> {
    pub numbers: &'a [i64],
    pub depth: usize,
    pub count: usize,
    ghost rows: { RowsOf depth count numbers.now },
}

// ---- links: from each access of a point to the next point that names its element, and to the next that writes it

// Links point x to the heads of the elements that it names.
fn link_point(nest: &NumberedAccesses, x: usize, heads: &[u16], links: &mut [u16])
    requires { Numbered nest.now.numbers.now nest.now.count nest.now.accesses (length heads.now) × (x < nest.now.count)
        × (nest.now.count * nest.now.accesses ≤ length links.old) }
    ensures { ((k : ℕ) → k < nest.now.accesses → get_or links.new (x * nest.now.accesses + k) 0
        ≡ get_or heads.now (number_at nest.now.numbers.now nest.now.count k x) 0)
        × ((i : ℕ) → x * nest.now.accesses + nest.now.accesses ≤ i → get_or links.new i 0 ≡ get_or links.old i 0) }
{
    let at = x * nest.accesses;
    for k in 0..nest.accesses {
        links[at + k] = heads[usize::from(nest.number(k, x))];
    }
}

// Makes x the head of the elements that it names; unless `all`, of those that it writes.
fn head_point(nest: &NumberedAccesses, all: bool, x: usize, heads: &mut [u16])
    requires { Numbered nest.now.numbers.now nest.now.count nest.now.accesses (length heads.old) × (x < nest.now.count) }
    ensures { (e : ℕ) → e < length heads.old → get_or heads.new e 0
        ≡ cond (names nest.now.numbers.now nest.now.writes.now nest.now.count nest.now.accesses all e x) x (get_or heads.old e 0) }
{
    for k in 0..nest.accesses {
        if all || nest.writes[k] {
            heads[usize::from(nest.number(k, x))] = x as u16;
        }
    }
}

// Links each access of every point to the next point that names its element; unless `all`, to the next that writes it. Lent is room for a head of
// each element; no head is `count`.
fn link_points(nest: &NumberedAccesses, all: bool, heads: &mut [u16], links: &mut [u16])
    requires { Numbered nest.now.numbers.now nest.now.count nest.now.accesses (length heads.old)
        × (nest.now.count * nest.now.accesses ≤ length links.old) }
    ensures { LinkedFrom nest.now.numbers.now nest.now.writes.now nest.now.count nest.now.accesses all 0 links.new }
{
    heads.fill(nest.count as u16);
    for x in (0..nest.count).rev() {
        link_point(nest, x, heads, links);
        head_point(nest, all, x, heads);
    }
}

// Links each access of every point in both tables.
pub fn link_all(nest: &NumberedAccesses, heads: &mut [u16], named: &mut [u16], written: &mut [u16])
    requires { Numbered nest.now.numbers.now nest.now.count nest.now.accesses (length heads.old)
        × (nest.now.count * nest.now.accesses ≤ length named.old) × (nest.now.count * nest.now.accesses ≤ length written.old) }
    ensures { Links nest.now.numbers.now nest.now.writes.now nest.now.count nest.now.accesses named.new written.new }
{
    link_points(nest, true, heads, named);
    link_points(nest, false, heads, written);
}

// ---- the points that conflict with a point

// An access of point y that names element e; one does.
fn access_naming(tables: &LinkedAccesses, y: usize, e: u16) -> usize
    requires { (y < tables.now.count)
        × ((k : ℕ) × (k < tables.now.accesses) × (number_at tables.now.numbers.now tables.now.count k y ≡ e)) }
    ensures { (result < tables.now.accesses) × (number_at tables.now.numbers.now tables.now.count result y ≡ e) }
{
    for k in 0..tables.accesses {
        if tables.number(k, y) == e {
            return k;
        }
    }
    0
}

// The link at a place in the table that access k follows: a write meets all that name its element, a read those that write it.
fn link_of(tables: &LinkedAccesses, k: usize, place: usize) -> u16
    requires { (k < tables.now.accesses) × (place < tables.now.count * tables.now.accesses) }
    ensures { result ≡ cond (get_or tables.now.writes.now k false) (get_or tables.now.named.now place 0)
        (get_or tables.now.written.now place 0) }
{
    if tables.writes[k] {
        return tables.named[place];
    }
    tables.written[place]
}

// Begins the chains of the accesses of x.
fn begin_chains(tables: &LinkedAccesses, x: usize, chains: &mut [u16])
    requires { (x < tables.now.count) × (tables.now.accesses ≤ length chains.old) }
    ensures { ChainsAt tables.now.numbers.now tables.now.writes.now tables.now.count tables.now.accesses x (suc x)
        chains.new }
{
    let at = x * tables.accesses;
    for k in 0..tables.accesses {
        chains[k] = link_of(tables, k, at + k);
    }
}

// The least point that a chain has come to, or `count`.
fn least_point(chains: &[u16], accesses: usize, count: usize) -> usize
    requires { accesses ≤ length chains.now }
    ensures { Least accesses count chains.now result }
{
    let mut least = count;
    for k in 0..accesses {
        let y = usize::from(chains[k]);
        if y < least {
            least = y;
        }
    }
    least
}

// Takes the chains of the accesses of x that have come to y on to the next point.
fn advance_chains(tables: &LinkedAccesses, x: usize, y: usize, chains: &mut [u16])
    requires { (x < tables.now.count) × (y < tables.now.count) × (tables.now.accesses ≤ length chains.old)
        × ChainsAt tables.now.numbers.now tables.now.writes.now tables.now.count tables.now.accesses x y chains.old }
    ensures { ChainsAt tables.now.numbers.now tables.now.writes.now tables.now.count tables.now.accesses x (suc y)
        chains.new }
{
    let at = y * tables.accesses;
    for k in 0..tables.accesses {
        if usize::from(chains[k]) == y {
            let j = access_naming(tables, y, tables.number(k, x));
            chains[k] = link_of(tables, k, at + j);
        }
    }
}

// Whether row y comes before row x, by rising first number, then second and so on.
fn row_before(rows: &Rows, y: usize, x: usize) -> bool
    requires { (y < rows.now.count) × (x < rows.now.count) }
    ensures { result ≡ row_before rows.now.depth rows.now.numbers.now y x }
{
    let first = y * rows.depth;
    let second = x * rows.depth;
    for k in 0..rows.depth {
        let sign = dependence_vectors::sign(rows.numbers[first + k], rows.numbers[second + k]);
        if sign != 1 {
            return sign == 0;
        }
    }
    false
}

// Writes the partners of point x, rising; answers how many there are. Lent is room for the chains of its accesses.
fn gather_partners(
    tables: &LinkedAccesses,
    rows: &Rows,
    x: usize,
    chains: &mut [u16],
    out: &mut [u16],
) -> usize
    requires { (rows.now.count ≡ tables.now.count) × (x < tables.now.count) × (tables.now.accesses ≤ length chains.old)
        × (tables.now.count ≤ length out.old) }
    ensures { (result ≤ tables.now.count)
        × (take result out.new ≡ partners tables.now.numbers.now tables.now.writes.now tables.now.count
        tables.now.accesses rows.now.depth rows.now.numbers.now x) }
{
    let count = tables.count;
    let accesses = tables.accesses;
    begin_chains(tables, x, chains);
    let mut found = 0;
    let mut y = least_point(chains, accesses, count);
    // not a `for`: from each point to the next that a chain has come to
    while y < count {
        if row_before(rows, y, x) {
            out[found] = y as u16;
            found += 1;
        }
        advance_chains(tables, x, y, chains);
        y = least_point(chains, accesses, count);
    }
    found
}

// The same with room of its own for the chains.
pub fn find_partners(tables: &LinkedAccesses, rows: &Rows, x: usize, out: &mut [u16]) -> usize
    requires { (rows.now.count ≡ tables.now.count) × (x < tables.now.count) × (tables.now.count ≤ length out.old) }
    ensures { (result ≤ tables.now.count)
        × (take result out.new ≡ partners tables.now.numbers.now tables.now.writes.now tables.now.count
        tables.now.accesses rows.now.depth rows.now.numbers.now x) }
{
    let mut chains = [0u16; ACCESSES];
    gather_partners(tables, rows, x, &mut chains, out)
}
