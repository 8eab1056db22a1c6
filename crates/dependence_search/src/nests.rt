// A nest's points and accesses as flat data.

ghost use Rattle.std.specs.Prelude.{◌≡◌, ◌<◌, length};
ghost use Rattle.lists.specs.Order.{Ordered};
ghost use Rattle.lists.specs.Parts.{rows};
ghost use Rattle.model.specs.Inside.{Earlier};
ghost use Rattle.dependence_search.specs.Flat.{flat, FlatIn, rising-prop, numbers_of};

// Points as rows of `depth` indices. Of each access: the number of its element at each point, one access after the other; its statement, of `body`;
// and whether it writes.
#[derive(Clone, Copy)]
pub struct NumberedNest<'a> {
    pub points: &'a [i64],
    pub depth: usize,
    pub count: usize,
    pub numbers: &'a [u16],
    pub statements: &'a [usize],
    pub writes: &'a [bool],
    pub body: usize,
    ghost flat_in: { FlatIn (flat points.now depth count numbers.now statements.now writes.now body) },
    ghost rising: { Ordered Earlier (rows depth count points.now) } by { rising-prop (rows depth count points.now) },
}

impl NumberedNest<'_> {
    // The numbers of access a at all points.
    pub fn numbers_of(&self, a: usize) -> &[u16]
        requires { a < length self.now.statements.now }
        ensures { result.now ≡ numbers_of self.now.count self.now.numbers.now a }
    {
        let first = a * self.count;
        &self.numbers[first..first + self.count]
    }
}
