// Numbers of flat slices as wide rows, to reckon with, and back with the test of refusal 12: every number is within ±32767.
#![tactic(auto)]

ghost use Rattle.std.specs.Prelude.{◌≡◌, ◌++◌, ◌+◌, ◌<◌, ◌≤◌, pos, length, get_or, take, drop, is_ok};
ghost use Rattle.lists.specs.Parts.{put};
ghost use Rattle.lists.specs.Place.{under, swapped};
ghost use Rattle.lists.specs.Tests.{all};
ghost use Rattle.integers.specs.Affine.{Within};
ghost use Rattle.integers.specs.Difference.{size};
ghost use Rattle.model.specs.Grammar.{most_loops};
ghost use Rattle.model.specs.Judge.{small};
ghost use Rattle.nest_rows.specs.Rows.{RowIs, Tried};

use model::LOOPS;

// ---- the test

// A number is beyond ±32767.
#[derive(Clone, Copy)]
pub struct NumberOutOfRange;

pub fn small_number(x: i32) -> bool
    ensures { result ≡ small x }
{
    x.unsigned_abs() <= 32767
}

pub fn small_row(cs: [i32; LOOPS], n: usize) -> bool
    requires { n ≤ most_loops }
    ensures { result ≡ all small (take n cs) }
{
    cs[..n].iter().all(|&x| small_number(x))
}

// ---- read

pub fn word_at(words: &[i16], at: usize) -> i32
    requires { at < length words.now }
    ensures { result ≡ get_or words.now at (pos 0) }
{
    i32::from(words[at])
}

// Six words, whether or not all of them count: with no loop.
pub fn row_at(words: &[i16], at: usize) -> [i32; LOOPS]
    requires { at + 6 ≤ length words.now }
    ensures { result ≡ take 6 (drop at words.now) }
{
    [
        word_at(words, at),
        word_at(words, at + 1),
        word_at(words, at + 2),
        word_at(words, at + 3),
        word_at(words, at + 4),
        word_at(words, at + 5),
    ]
}

// ---- the places of a row, of which the first n count

// Places a and a + 1 trade what they hold.
pub fn exchange_places<T: Copy>(row: [T; LOOPS], n: usize, a: usize) -> [T; LOOPS]
    requires { (a + 1 < n) × (n ≤ most_loops) }
    ensures { RowIs n result (under a swapped (take n row)) }
{
    let mut r = row;
    r.swap(a, a + 1);
    r
}

// What stands from place a on moves by one, and place a keeps what it held.
pub fn double_place<T: Copy>(row: [T; LOOPS], n: usize, a: usize) -> [T; LOOPS]
    requires { (a < n) × (n < most_loops) }
    ensures { RowIs (n + 1) result (take (a + 1) row ++ drop a (take n row)) }
{
    let mut r = row;
    r.copy_within(a..n, a + 1);
    r
}

// ---- put back

pub fn narrow(x: i32) -> i16
    requires { size x ≤ 32767 }
    ensures { result ≡ x }
{
    x as i16
}

pub fn lay_row(words: &mut [i16], at: usize, row: &[i32])
    requires { (at + length row.now ≤ length words.old) × Within 32767 row.now }
    ensures { words.new ≡ put words.old at row.now }
{
    for (j, &x) in row.iter().enumerate() {
        words[at + j] = narrow(x);
    }
}

// The words stay as they are if a number is too large for them.
pub fn put_row(
    words: &mut [i16],
    at: usize,
    n: usize,
    row: [i32; LOOPS],
) -> Result<(), NumberOutOfRange>
    requires { (at + n ≤ length words.old) × (n ≤ most_loops) }
    ensures { Tried (all small (take n row)) words.old at (take n row) (is_ok result) words.new }
{
    if !small_row(row, n) {
        return Err(NumberOutOfRange);
    }
    lay_row(words, at, &row[..n]);
    Ok(())
}
