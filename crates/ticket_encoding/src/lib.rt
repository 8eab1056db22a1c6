// A nest as a ticket's bytes in a lent buffer. `at` is a place in the buffer, and a writer answers the place behind what it wrote.
#![tactic(auto)]

ghost use Rattle.std.specs.Prelude.{◌+◌, ◌≤◌, ◌<◌, length, get_or};
ghost use Rattle.std.proofs.Props.{props};
ghost use Rattle.lists.specs.Membership.{All};
ghost use Rattle.model.specs.Encode.{counted, array_words, access_words, statement_words, nest_words};
ghost use Rattle.model.specs.Ranges.{Small};
ghost use Rattle.nest_flat.specs.Layout.{arrays_of};
ghost use Rattle.nest_flat.specs.FlatNests.{flat, nest_of};
ghost use Rattle.ticket_encoding_words.specs.Writing.{Writable, Written};
ghost use Rattle.ticket_lengths.specs.Slices.{SlicesIn};
ghost use Rattle.ticket_lengths.specs.Lengths.{ArraysIn};
ghost use Rattle.ticket_encoding.specs.Encodable.{FlatNestEncodable};
ghost use Rattle.ticket_encoding.specs.Encoding.{Encodes};
ghost use Rattle.ticket_encoding.specs.Facts.{within-prop};

use model::{ACCESS_ROOM, ARRAY_ROOM, DIMENSIONS, ROW_ROOM};
use nest_flat::FlatNest;
use ticket_encoding_words::{write_loops, write_word, write_words};

// The buffer is too short: the nest has this many bytes.
#[derive(Clone, Copy)]
pub struct TooShort {
    pub needed: usize,
}

// A nest of `depth` loops on the slices that hold it. The arrays on `arrays` are written, and the extents on `extents` say how many subscripts an
// access has.
#[derive(Clone, Copy)]
pub struct NestSlices<'a> {
    pub limits: &'a [i16],
    pub counts: &'a [usize],
    pub depth: usize,
    pub arrays: &'a [usize],
    pub extents: &'a [usize],
    pub sizes: &'a [usize],
    pub rules: &'a [usize],
    pub constants: &'a [usize],
    pub accessed: &'a [usize],
    pub words: &'a [i16],
    ghost held: { SlicesIn limits.now counts.now depth arrays.now extents.now sizes.now rules.now constants.now accessed.now words.now } by { Prim.hlevel (props, within-prop) },
}

// All arrays behind their count, each as it stands: the number of its dimensions, its extents.
fn write_arrays(out: &mut [u8], at: usize, arrays: &[usize]) -> usize
    requires { Writable out.old at (counted array_words (arrays_of arrays.now)) × ArraysIn arrays.now }
    ensures { Written out.old out.new at (counted array_words (arrays_of arrays.now)) result }
{
    let count = arrays.len() / ARRAY_ROOM;
    let mut next = write_word(out, at, count);
    for i in 0..count {
        let first = i * ARRAY_ROOM;
        let dimensions = arrays[first];
        next = write_words(out, next, &arrays[first..first + dimensions + 1]);
    }
    next
}

impl NestSlices<'_> {
    ghost use Rattle.ticket_encoding.specs.Nests.{access_on, accesses_on, statement_on, statements_on, nest_on};

    // Access k of all: its array's number, its subscripts.
    fn write_access(&self, out: &mut [u8], at: usize, k: usize) -> usize
        requires { Writable out.old at (access_words (access_on self.now k)) × (k < length self.now.accessed.now) }
        ensures { Written out.old out.new at (access_words (access_on self.now k)) result }
    {
        let array = self.accessed[k];
        let dimensions = self.extents[array * ARRAY_ROOM];
        let mut next = write_word(out, at, array + 1);
        for d in 0..dimensions {
            let first = (k * DIMENSIONS + d) * ROW_ROOM;
            next = write_words(out, next, &self.words[first..first + self.depth + 1]);
        }
        next
    }

    // m accesses from access k on behind their count.
    fn write_accesses(&self, out: &mut [u8], at: usize, k: usize, m: usize) -> usize
        requires { Writable out.old at (counted access_words (accesses_on self.now k m)) × (k + m ≤ length self.now.accessed.now) }
        ensures { Written out.old out.new at (counted access_words (accesses_on self.now k m)) result }
    {
        let mut next = write_word(out, at, m);
        for i in 0..m {
            next = self.write_access(out, next, k + i);
        }
        next
    }

    // Statement i, whose first access is access k: its rule, its constant, the write, the reads.
    fn write_statement(&self, out: &mut [u8], at: usize, i: usize, k: usize) -> usize
        requires { Writable out.old at (statement_words (statement_on self.now i k)) × (i < length self.now.sizes.now)
            × (k + get_or self.now.sizes.now i 0 ≤ length self.now.accessed.now) }
        ensures { Written out.old out.new at (statement_words (statement_on self.now i k)) result }
    {
        let second = write_word(out, at, self.rules[i]);
        let third = write_word(out, second, self.constants[i]);
        let fourth = self.write_access(out, third, k);
        self.write_accesses(out, fourth, k + 1, self.sizes[i] - 1)
    }

    // All statements behind their count. k is the first access of statement i.
    fn write_statements(&self, out: &mut [u8], at: usize) -> usize
        requires { Writable out.old at (counted statement_words (statements_on self.now)) }
        ensures { Written out.old out.new at (counted statement_words (statements_on self.now)) result }
    {
        let mut next = write_word(out, at, self.sizes.len());
        let mut k = 0;
        for (i, &m) in self.sizes.iter().enumerate() {
            next = self.write_statement(out, next, i, k);
            k += m;
        }
        next
    }

    // The sections of the nest, and no steps.
    fn write(&self, out: &mut [u8]) -> usize
        requires { Writable out.old 0 (nest_words (nest_on self.now)) }
        ensures { Written out.old out.new 0 (nest_words (nest_on self.now)) result }
    {
        let second = write_loops(out, 0, self.limits, self.counts, self.depth);
        let third = write_arrays(out, second, self.arrays);
        let fourth = self.write_statements(out, third);
        write_word(out, fourth, 0usize)
    }

    // Its bytes, from the buffer's start on; where they do not fit, nothing is written. How many were written.
    pub fn encode(&self, out: &mut [u8]) -> Result<usize, TooShort>
        requires { All Small (nest_words (nest_on self.now)) }
        ensures { Encodes (nest_on self.now) out.old out.new result }
    {
        let needed = ticket_lengths::encoded_length(
            self.counts,
            self.depth,
            self.arrays,
            self.extents,
            self.accessed,
            self.sizes.len(),
        );
        if out.len() < needed {
            return Err(TooShort { needed });
        }
        Ok(self.write(out))
    }
}

// The bytes of the nest on a header.
pub fn encode_flat_nest(nest: &FlatNest, out: &mut [u8]) -> Result<usize, TooShort>
    requires { FlatNestEncodable (flat nest.now) }
    ensures { Encodes (nest_of (flat nest.now)) out.old out.new result }
{
    let extents = &nest.header.extents[..nest.header.arrays * ARRAY_ROOM];
    let nest = NestSlices {
        limits: nest.limits,
        counts: &nest.header.counts,
        depth: nest.header.depth,
        arrays: extents,
        extents,
        sizes: &nest.header.sizes[..nest.header.statements],
        rules: &nest.header.rules,
        constants: &nest.header.constants,
        accessed: &nest.header.accessed[..nest.header.accesses],
        words: &nest.words[..nest.header.accesses * ACCESS_ROOM],
    };
    nest.encode(out)
}
