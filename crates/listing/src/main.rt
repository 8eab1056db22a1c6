// Reads a ticket from standard input and prints its listing, or `refused` with number and place.
#![tactic(auto)]

use ticket_refusals::Refusal;

const STDIN: i32 = 0;

const STDOUT: i32 = 1;

fn print_number(n: usize) {
    io::write_all(STDOUT, b" ");
    io::print_decimal(STDOUT, n as u64);
}

fn print_refusal(r: Refusal) {
    io::write_all(STDOUT, b"refused");
    print_number(r.number());
    print_number(r.place());
    io::write_all(STDOUT, b"\n");
}

fn print_listing(ticket: &[u8]) {
    let mut out = io::large_buffer();
    match entry_list::list(ticket, &mut out) {
        Ok(n) => {
            io::write_all(STDOUT, &out[..n]);
        }
        Err(r) => print_refusal(r),
    }
}

// The longest ticket has 504 words: 121 of loops, 17 of arrays, 333 of statements and 33 of steps. What follows a ticket's last step is refused at
// the word where it begins, at most the 505th, whatever it is. So the first 65,536 bytes of an input that is longer have the answer of the whole.
fn main() {
    let mut input = io::large_buffer();
    let n = io::read_full(STDIN, &mut input);
    print_listing(&input[..n]);
}
