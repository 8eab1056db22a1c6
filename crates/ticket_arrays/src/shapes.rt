// An array as it is read.
ghost use Rattle.ticket_arrays.specs.Shapes.{ShapeIn};

use model::DIMENSIONS;

// Its first `dimensions` extents, in an array of the most that there are, since the library has no heap; and the number of its elements.
#[derive(Clone, Copy)]
pub struct Shape {
    pub dimensions: usize,
    pub extents: [usize; DIMENSIONS],
    pub elements: usize,
    ghost within: { ShapeIn dimensions extents elements },
}
