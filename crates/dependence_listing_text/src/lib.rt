// The text of a listing from the marks of its lines: the size first, then the bytes.
#![tactic(auto)]

ghost use Rattle.std.specs.Prelude.{◌≡◌, ◌+◌, ◌*◌, ◌-◌, ◌/◌, ◌%◌, ◌≤◌, ◌<◌, length, get_or, take};
ghost use mathlib.Core.List.{flat_map};
ghost use Rattle.lists.specs.Parts.{put};
ghost use Rattle.model.specs.Directions.{flow, kinds, kind_count, vector_count};
ghost use Rattle.model.specs.Listing.{line_text};
ghost use Rattle.model.specs.Listing.{letter as «letter-of»};
ghost use Rattle.model.specs.Grammar.{most_statements, most_loops};
ghost use Rattle.dependence_vectors.specs.Numbers.{marks_for};
ghost use Rattle.dependence_vectors.specs.Candidates.{stride, middle};
ghost use Rattle.dependence_listing_text.specs.Text.{marked, shown, line_at, Marks, Field, Written, line_count};
ghost use Rattle.dependence_listing_text.specs.Text.{text as «text_of»};

use model::KINDS;

fn byte(x: usize) -> u8
    requires { x < 256 }
    ensures { result ≡ x }
{
    x as u8
}

// Writes `src` over `out` from `at` on.
fn copy_bytes(out: &mut [u8], at: usize, src: &[u8])
    requires { at + length src.now ≤ length out.old }
    ensures { out.new ≡ put out.old at src.now }
{
    out[at..at + src.len()].copy_from_slice(src);
}

// ---- line i of all that there could be, by source, sink, kind and signs

fn line_count(n: usize, depth: usize) -> usize
    requires { (n ≤ most_statements) × (depth ≤ most_loops) }
    ensures { (result ≡ line_count n depth) × (result ≤ marks_for most_statements) }
{
    n * n * KINDS * dependence_vectors::stride(6 - depth)
}

// The number of its source, sink and kind.
fn line_block(depth: usize, i: usize) -> usize
    requires { depth ≤ most_loops }
    ensures { result ≡ i / stride depth }
{
    i / dependence_vectors::stride(6 - depth)
}

// The number of its vector.
fn line_vector(depth: usize, i: usize) -> usize
    requires { depth ≤ most_loops }
    ensures { (result ≡ i % stride depth * stride (6 - depth) + middle (6 - depth)) × (result < vector_count) }
{
    let step = dependence_vectors::stride(depth);
    i % dependence_vectors::stride(6 - depth) * step + (step - 1) / 2
}

// Whether it is marked. A block of VECTORS marks holds the lines of one source, sink and kind, `step` places from one to the next: so they go
// on in the next block.
fn is_marked(marks: &[bool], n: usize, depth: usize, i: usize) -> bool
    requires { Marks marks.now n depth × (i < line_count n depth) }
    ensures { result ≡ marked marks.now n (line_at n depth i) }
{
    let step = dependence_vectors::stride(depth);
    marks[i * step + (step - 1) / 2]
}

// The letter of kind k.
pub fn letter(k: usize) -> u8
    requires { k < kind_count }
    ensures { result ≡ «letter-of» (get_or kinds k flow) }
{
    match k {
        0 => b'F',
        1 => b'A',
        _ => b'O',
    }
}

// Its text, in the first depth + 7 bytes.
fn line(n: usize, depth: usize, i: usize) -> [u8; 13]
    requires { (n ≤ most_statements) × (depth ≤ most_loops) × (i < line_count n depth) }
    ensures { (length result ≡ 13) × (take (depth + 7) result ≡ line_text (line_at n depth i)) }
{
    let b = line_block(depth, i);
    let v = line_vector(depth, i);
    let mut r = [
        letter(b % KINDS),
        b' ',
        byte(49 + b / KINDS / n),
        b' ',
        byte(49 + b / KINDS % n),
        b' ',
        byte(60 + v / 243),
        byte(60 + v / 81 % 3),
        byte(60 + v / 27 % 3),
        byte(60 + v / 9 % 3),
        byte(60 + v / 3 % 3),
        byte(60 + v % 3),
        10,
    ];
    r[6 + depth] = 10;
    r
}

// Writes it at p.
fn write_line(out: &mut [u8], p: usize, n: usize, depth: usize, i: usize)
    requires { (n ≤ most_statements) × (depth ≤ most_loops) × (i < line_count n depth) × (p + (depth + 7) ≤ length out.old) }
    ensures { out.new ≡ put out.old p (line_text (line_at n depth i)) }
{
    let b = line(n, depth, i);
    copy_bytes(out, p, &b[..depth + 7]);
}

// ---- all lines that are marked

fn marked_count(marks: &[bool], n: usize, depth: usize) -> usize
    requires { Marks marks.now n depth }
    ensures { (result ≡ length (shown marks.now n depth)) × (result ≤ marks_for most_statements) }
{
    let total = line_count(n, depth);
    let mut k = 0;
    for i in 0..total {
        if is_marked(marks, n, depth, i) {
            k += 1;
        }
    }
    k
}

// Writes them from `at` on.
fn write_lines(marks: &[bool], n: usize, depth: usize, out: &mut [u8], at: usize)
    requires { Marks marks.now n depth × (at + length (shown marks.now n depth) * (depth + 7) ≤ length out.old) }
    ensures { out.new ≡ put out.old at (flat_map line_text (shown marks.now n depth)) }
{
    let total = line_count(n, depth);
    let mut p = at;
    for i in 0..total {
        if is_marked(marks, n, depth, i) {
            write_line(out, p, n, depth, i);
            p += depth + 7;
        }
    }
}

// ---- the whole

// A number and the byte after it, in the first `len` bytes. Made before anything is written: a buffer that is short for the whole stays as it is.
#[derive(Clone, Copy)]
pub struct Digits {
    pub bytes: [u8; 6],
    pub len: usize,
}

fn field(n: usize, end: u8) -> Digits
    requires { n < 100000 }
    ensures { Field result.bytes result.len n end }
{
    let e = byte(48 + n % 10);
    if n < 10 {
        return Digits {
            bytes: [byte(48 + n), end, 0, 0, 0, 0],
            len: 2,
        };
    }
    let d = byte(48 + n / 10 % 10);
    if n < 100 {
        return Digits {
            bytes: [byte(48 + n / 10), e, end, 0, 0, 0],
            len: 3,
        };
    }
    let c = byte(48 + n / 100 % 10);
    if n < 1000 {
        return Digits {
            bytes: [byte(48 + n / 100), d, e, end, 0, 0],
            len: 4,
        };
    }
    let b = byte(48 + n / 1000 % 10);
    if n < 10000 {
        return Digits {
            bytes: [byte(48 + n / 1000), c, d, e, end, 0],
            len: 5,
        };
    }
    Digits {
        bytes: [byte(48 + n / 10000), b, c, d, e, end],
        len: 6,
    }
}

// Writes a field at `at`, and returns the place after it.
fn write_field(f: Digits, out: &mut [u8], at: usize) -> usize
    requires { (length f.bytes ≡ 6) × (f.len ≤ 6) × (at + f.len ≤ length out.old) }
    ensures { (out.new ≡ put out.old at (take f.len f.bytes)) × (result ≡ at + f.len) }
{
    let b = f.bytes;
    let l = f.len;
    copy_bytes(out, at, &b[..l]);
    at + l
}

// The whole listing: the number of bytes written, or None, with nothing written, where the buffer is short.
pub fn write_listing(
    marks: &[bool],
    n: usize,
    depth: usize,
    points: usize,
    out: &mut [u8],
) -> Option<usize>
    requires { Marks marks.now n depth × (points < 100000) }
    ensures { Written («text_of» marks.now n depth points) out.old out.new result }
{
    let k = marked_count(marks, n, depth);
    let a = field(depth, b' ');
    let b = field(points, b' ');
    let c = field(k, 10);
    let head = a.len + b.len + c.len;
    let size = head + k * (depth + 7);
    if out.len() < size {
        return None;
    }
    let p = write_field(a, out, 0);
    let q = write_field(b, out, p);
    let e = write_field(c, out, q);
    write_lines(marks, n, depth, out, e);
    Some(size)
}
