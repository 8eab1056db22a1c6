// The arrays of a ticket, read onto a flat slice (`nest_flat`, specs/Layout).
#![tactic(auto)]

ghost use Rattle.std.specs.Prelude.{◌≡◌, ◌+◌, ◌*◌, ◌≤◌, length, IfOk};
ghost use Rattle.lists.specs.Parts.{put};
ghost use Rattle.model.specs.Ranges.{ArrayRanges};
ghost use Rattle.model.specs.Grammar.{shape, array, array_room, most_extents, most_elements};
ghost use Rattle.ticket_words.specs.Reads.{Reads};
ghost use Rattle.ticket_arrays.specs.Laid.{shape_words};
ghost use Rattle.ticket_arrays.specs.Arrays.{shape_of, ReadsArrays};

pub mod shapes;

use model::{ARRAY_ROOM, ARRAYS, DIMENSIONS, ELEMENTS, EXTENT};
pub use shapes::Shape;
use ticket_refusals::Refusal;
use ticket_words::Words;

// A count and as many extents from 1 to 4096.
pub fn read_shape(words: &mut Words) -> Result<Shape, Refusal>
    ensures { Reads shape_of shape words.old result words.new }
{
    let dimensions = words.count(1, DIMENSIONS)?;
    let mut extents = [0usize; DIMENSIONS];
    let mut elements = 1;
    for extent in &mut extents[..dimensions] {
        *extent = words.natural(1, EXTENT)?;
        elements *= *extent;
    }
    Ok(Shape {
        dimensions,
        extents,
        elements,
    })
}

// An array after others of `total` elements; all together have at most 16,384.
pub fn read_array(words: &mut Words, total: usize) -> Result<Shape, Refusal>
    requires { total ≤ most_elements }
    ensures reads { Reads shape_of (array total) words.old result words.new }
    ensures ranges { IfOk result (λ a. ArrayRanges (shape_of a)) }
    ensures room { IfOk result (λ a. total + a.elements ≤ most_elements) }
{
    let shape = read_shape(words)?;
    if ELEMENTS < total + shape.elements {
        return Err(Refusal::TooManyElements(words.next - 1));
    }
    Ok(shape)
}

// Array i of all.
fn lay_shape(extents: &mut [usize], i: usize, shape: Shape)
    requires { i * array_room + array_room ≤ length extents.old }
    ensures { extents.new ≡ put extents.old (i * array_room) (shape_words (shape_of shape)) }
{
    let at = i * ARRAY_ROOM;
    extents[at] = shape.dimensions;
    extents[at + 1..at + 1 + shape.dimensions].copy_from_slice(&shape.extents[..shape.dimensions]);
}

// A count and as many arrays.
pub fn read_arrays(words: &mut Words, extents: &mut [usize]) -> Result<usize, Refusal>
    requires { length extents.old ≡ most_extents }
    ensures { ReadsArrays words.old extents.old extents.new result words.new }
{
    let count = words.count(1, ARRAYS)?;
    let mut total = 0;
    for k in 0..count {
        let shape = read_array(words, total)?;
        lay_shape(extents, k, shape);
        total += shape.elements;
    }
    Ok(count)
}
