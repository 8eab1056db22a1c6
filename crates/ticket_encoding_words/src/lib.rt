// Words and loops as bytes into a lent buffer. `at` is a place in the buffer, and a writer answers the place behind what it wrote.
#![tactic(auto)]

ghost use Rattle.std.specs.Prelude.{◌≡◌, [], ◌∷◌, map, ◌+◌, ◌≤◌, ◌<◌, ◌%◌, ◌/◌, ℤ, pos, nat_abs, length};
ghost use Rattle.lists.specs.Parts.{put};
ghost use Rattle.model.specs.Words.{bits};
ghost use Rattle.model.specs.Encode.{counted, limit_words, loop_words};
ghost use Rattle.nest_flat.specs.Flat.{limits_at, loop_at, loops_from, NestOk};
ghost use Rattle.ticket_encoding_words.specs.Writing.{Writable, Written};
ghost use Rattle.ticket_encoding_words.specs.Loops.{LimitsIn, LoopIn};

use model::ROW_ROOM;

// What is written as a word: the number that it stands for, and its 16 bits in two's complement.
pub trait Word: Copy {
    ghost number: { Self → ℤ };

    fn to_bits(self) -> u16
        requires { nat_abs (number self) ≤ 32767 }
        ensures { result ≡ bits (number self) };
}

impl Word for i16 {
    ghost number = { λ w. w };

    fn to_bits(self) -> u16 {
        self.cast_unsigned()
    }
}

impl Word for i32 {
    ghost number = { λ w. w };

    fn to_bits(self) -> u16 {
        (self as i16).cast_unsigned()
    }
}

impl Word for usize {
    ghost number = { pos };

    fn to_bits(self) -> u16 {
        self as u16
    }
}

// Two bytes, the lower first.
pub fn write_word<W: Word>(out: &mut [u8], at: usize, word: W) -> usize
    requires { Writable out.old at (W.number word ∷ []) }
    ensures { Written out.old out.new at (W.number word ∷ []) result }
{
    out[at..at + 2].copy_from_slice(&word.to_bits().to_le_bytes());
    at + 2
}

// One word after another.
pub fn write_words<W: Word>(out: &mut [u8], at: usize, words: &[W]) -> usize
    requires { Writable out.old at (map W.number words.now) }
    ensures { Written out.old out.new at (map W.number words.now) result }
{
    let mut next = at;
    for &word in words {
        next = write_word(out, next, word);
    }
    next
}

// n limits from limit j on behind their count, of a loop that has `outer` loops outside.
fn write_side(out: &mut [u8], at: usize, limits: &[i16], outer: usize, j: usize, n: usize) -> usize
    requires { Writable out.old at (counted limit_words (limits_at limits.now outer j n)) × LimitsIn limits.now outer j n }
    ensures { Written out.old out.new at (counted limit_words (limits_at limits.now outer j n)) result }
{
    let mut next = write_word(out, at, n);
    for k in 0..n {
        let first = (j + k) * ROW_ROOM;
        next = write_words(out, next, &limits[first..first + outer + 2]);
    }
    next
}

// Loop k of all: the lower side, the upper side.
fn write_loop(out: &mut [u8], at: usize, limits: &[i16], counts: &[usize], k: usize) -> usize
    requires { Writable out.old at (loop_words (loop_at limits.now counts.now k)) × LoopIn limits.now counts.now k }
    ensures { Written out.old out.new at (loop_words (loop_at limits.now counts.now k)) result }
{
    let lower = counts[k * 2];
    let upper = counts[k * 2 + 1];
    let first = k * 32;
    let second = first + 16;
    let next = write_side(out, at, limits, k, first, lower);
    write_side(out, next, limits, k, second, upper)
}

// All loops behind their count.
pub fn write_loops(
    out: &mut [u8],
    at: usize,
    limits: &[i16],
    counts: &[usize],
    depth: usize,
) -> usize
    requires { Writable out.old at (counted loop_words (loops_from limits.now counts.now 0 depth)) × NestOk limits.now counts.now depth }
    ensures { Written out.old out.new at (counted loop_words
        (loops_from limits.now counts.now 0 depth)) result }
{
    let mut next = write_word(out, at, depth);
    for k in 0..depth {
        next = write_loop(out, next, limits, counts, k);
    }
    next
}
