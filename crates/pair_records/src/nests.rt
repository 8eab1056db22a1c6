// A nest whose points conflict: the points, the elements that are named at them, and where the points are moved to.

ghost use Rattle.std.specs.Prelude.{◌≡◌, ◌<◌, length};
ghost use Rattle.std.proofs.Props.{props};
ghost use Rattle.pair_partners.specs.Chains.{number_at};
ghost use Rattle.pair_records.specs.Conflicts.{sized, within-prop};
ghost use Rattle.pair_records.specs.Walks.{Walkable};

// `count` points as rows of `depth` indices; how many accesses each statement has; the accesses with their links, as in `LinkedAccesses`; and the rows
// of `moved_depth` numbers that the points are moved to, by whose order places are traded. All in one struct: the borrow checker covers no field that
// is itself a struct of references.
#[derive(Clone, Copy)]
pub struct LinkedNest<'a> {
    pub points: &'a [i64],
    pub depth: usize,
    pub count: usize,
    pub sizes: &'a [usize],
    pub accesses: usize,
    pub numbers: &'a [u16],
    pub writes: &'a [bool],
    pub named: &'a [u16],
    pub written: &'a [u16],
    pub moved: &'a [i64],
    pub moved_depth: usize,
    ghost walkable: { Walkable (sized points.now depth count numbers.now sizes.now (length sizes.now)) sizes.now accesses moved_depth moved.now
        writes.now named.now written.now } by { Prim.hlevel (props, within-prop) },
}

impl LinkedNest<'_> {
    // The number of the element that access k names at point x.
    pub fn number(&self, k: usize, x: usize) -> u16
        requires { (k < self.now.accesses) × (x < self.now.count) }
        ensures { result ≡ number_at self.now.numbers.now self.now.count k x }
    {
        self.numbers[k * self.count + x]
    }
}
