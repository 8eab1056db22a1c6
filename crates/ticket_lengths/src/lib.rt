// How many words a nest has when it is written: sums over counts and numbers of dimensions.
#![tactic(auto)]

ghost use Rattle.std.specs.Prelude.{◌≡◌, ◌+◌, ◌*◌, ◌≤◌, ◌<◌, ◌/◌, length};
ghost use Rattle.model.specs.Grammar.{most_accesses, most_loops, array_room, most_extents};
ghost use Rattle.ticket_lengths.specs.Lengths.{sums, loop_length, array_length, access_length, nest_length, CountsIn, ArraysIn, AccessedIn};
ghost use Rattle.ticket_lengths.specs.Lengths.{LengthIn};

use model::ARRAY_ROOM;

// Loop k.
fn loop_words(counts: &[usize], k: usize) -> usize
    requires { CountsIn counts.now (k + 1) }
    ensures { (result ≡ loop_length counts.now k) × (result ≤ 258) }
{
    (counts[k * 2] + counts[k * 2 + 1]) * (k + 2) + 2
}

fn loops_words(counts: &[usize], depth: usize) -> usize
    requires { CountsIn counts.now depth }
    ensures { (result ≡ sums (loop_length counts.now) 0 depth) × (result ≤ most_loops * 258) }
{
    let mut total = 0;
    for k in 0..depth {
        total += loop_words(counts, k);
    }
    total
}

fn arrays_words(extents: &[usize]) -> usize
    requires { ArraysIn extents.now }
    ensures { (result ≡ sums (array_length extents.now) 0 (length extents.now / array_room)) × (result ≤ most_extents) }
{
    let count = extents.len() / ARRAY_ROOM;
    let mut total = 0;
    for i in 0..count {
        total += extents[i * ARRAY_ROOM] + 1;
    }
    total
}

// The accesses, in a nest of n loops.
fn accesses_words(accessed: &[usize], extents: &[usize], n: usize) -> usize
    requires { AccessedIn accessed.now extents.now n }
    ensures { (result ≡ sums (access_length accessed.now extents.now n) 0 (length accessed.now))
        × (result ≤ most_accesses * 22) }
{
    let mut total = 0;
    for &array in accessed {
        total += extents[array * ARRAY_ROOM] * (n + 1) + 1;
    }
    total
}

// How many bytes a nest has in which these arrays are written; an array's extents say how many subscripts an access has. These are the bytes
// of its encoding (proofs/LengthLaws: length-is).
pub fn encoded_length(
    counts: &[usize],
    depth: usize,
    arrays: &[usize],
    extents: &[usize],
    accessed: &[usize],
    statements: usize,
) -> usize
    requires { LengthIn counts.now depth arrays.now extents.now accessed.now statements }
    ensures { result ≡ nest_length counts.now depth arrays.now extents.now accessed.now statements * 2 }
{
    let loops = loops_words(counts, depth);
    let written = arrays_words(arrays);
    let accesses = accesses_words(accessed, extents, depth);
    (loops + written + accesses + (statements * 3 + 4)) * 2
}
