// Prints a table of the two divisions around zero: dividend, divisor, rounded down, rounded up. Then one of signs: two numbers, and how the
// first stands to the second.
#![tactic(auto)]

ghost use Rattle.std.specs.Prelude.{pos, ◌<ℤ◌};

use integers::{ceil_div, floor_div, sign_of};

const STDOUT: i32 = 1;

// Writes n. Not by `println!`, which rests on more of the C library, and whose caller would have to say what becomes of an output that cannot be
// written: here it changes nothing.
fn print_signed(n: i64) {
    if n < 0 {
        io::write_all(STDOUT, b"-");
    }
    io::print_decimal(STDOUT, n.unsigned_abs());
}

// Writes two numbers, with a blank behind each.
fn print_two(a: i64, b: i64) {
    print_signed(a);
    io::write_all(STDOUT, b" ");
    print_signed(b);
    io::write_all(STDOUT, b" ");
}

// Writes one line of the table.
fn print_line(a: i64, b: i64)
    requires { pos 0 <ℤ b }
{
    print_two(a, b);
    print_signed(floor_div(a, b));
    io::write_all(STDOUT, b" ");
    print_signed(ceil_div(a, b));
    io::write_all(STDOUT, b"\n");
}

// Writes one line of the signs.
fn print_sign(a: i64, b: i64) {
    print_two(a, b);
    print_signed(sign_of(a, b));
    io::write_all(STDOUT, b"\n");
}

// At the ends of 64 bits, where the difference does not fit, and around zero.
fn print_signs() {
    print_sign(i64::MIN, i64::MAX);
    print_sign(i64::MAX, i64::MIN);
    print_sign(i64::MIN, i64::MIN);
    print_sign(i64::MAX, i64::MAX);
    print_sign(0, i64::MIN);
    print_sign(i64::MIN, 0);
    print_sign(0, i64::MAX);
    print_sign(-1, 0);
    print_sign(0, 0);
    print_sign(1, 0);
}

fn main() {
    for a in -9..10 {
        for b in 1..5 {
            print_line(a, b);
        }
    }
    print_signs();
}
