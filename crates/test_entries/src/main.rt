// Prints what judge, write, list, quick and run answer for each case on standard input. A case is six numbers in two bytes each, lowest first: the
// lengths of a ticket, of the buffer that write is lent, of the one that list is lent and of a store, and two access numbers; then the ticket and
// the store's words, in four bytes each, lowest first. It prints `accepted` with the count, `apart`, `perhaps`, or `refused` with number and place;
// the bytes of a new nest in hexadecimal, the text of a listing, and the words that an accepted run leaves. It prints `changed` where a byte around
// what was written, of 65,536 bytes filled with 170, or a word of a store that was not to change, is not what it was.
#![tactic(auto)]

ghost use Rattle.std.specs.Prelude.{◌≡◌, ◌+◌, ◌*◌, ◌<◌, ◌≤◌, length};
ghost use Rattle.model.specs.Answer.{count_in};
ghost use Rattle.ticket_refusals.specs.Refusals.{answer_of};

use entry_answers::Answer;
use entry_quick::Meeting;
use ticket_refusals::Refusal;

const STDIN: i32 = 0;

const STDOUT: i32 = 1;

// ---- answers

fn print_number(n: usize) {
    io::write_all(STDOUT, b" ");
    io::print_decimal(STDOUT, n as u64);
}

fn print_count(n: usize) {
    io::write_all(STDOUT, b"accepted");
    print_number(n);
    io::write_all(STDOUT, b"\n");
}

fn print_refusal(r: Refusal) {
    io::write_all(STDOUT, b"refused");
    print_number(r.number());
    print_number(r.place());
    io::write_all(STDOUT, b"\n");
}

// Returns the count, which is 0 of a refusal.
fn print_answer(a: Answer) -> usize
    ensures { result ≡ count_in (answer_of a) }
{
    match a {
        Ok(n) => {
            print_count(n);
            n
        }
        Err(r) => {
            print_refusal(r);
            0
        }
    }
}

fn print_unless_kept(kept: bool) {
    if !kept {
        io::write_all(STDOUT, b"changed\n");
    }
}

// ---- judge and quick

fn try_judge(ticket: &[u8]) {
    print_answer(entry_judge::judge(ticket));
}

fn try_quick(ticket: &[u8], first: usize, second: usize) {
    match entry_quick::quick(ticket, first, second) {
        Ok(Meeting::Apart) => {
            io::write_all(STDOUT, b"apart\n");
        }
        Ok(Meeting::Perhaps) => {
            io::write_all(STDOUT, b"perhaps\n");
        }
        Err(r) => print_refusal(r),
    }
}

// ---- write and list

fn fill(out: &mut [u8]) {
    for i in 0..out.len() {
        out[i] = 170;
    }
}

// Whether the bytes from `first` on are as they were filled.
fn is_filled(out: &[u8], first: usize) -> bool {
    for i in first..out.len() {
        if out[i] != 170 {
            return false;
        }
    }
    true
}

fn print_byte(b: u8) {
    io::print_hex(STDOUT, b as u64, 2);
}

fn print_bytes(bytes: &[u8]) {
    for i in 0..bytes.len() {
        print_byte(bytes[i]);
    }
    io::write_all(STDOUT, b"\n");
}

fn try_write(ticket: &[u8], out: &mut [u8], lent: usize)
    requires { lent ≤ length out.old }
{
    fill(out);
    let n = print_answer(entry_write::write(ticket, &mut out[..lent]));
    if 0 < n {
        print_bytes(&out[..n]);
    }
    print_unless_kept(is_filled(out, n));
}

fn try_list(ticket: &[u8], out: &mut [u8], lent: usize)
    requires { lent ≤ length out.old }
{
    fill(out);
    let n = print_answer(entry_list::list(ticket, &mut out[..lent]));
    io::write_all(STDOUT, &out[..n]);
    print_unless_kept(is_filled(out, n));
}

// ---- run

fn print_word(w: u32) {
    io::write_all(STDOUT, b" ");
    io::print_decimal(STDOUT, w as u64);
}

fn print_words(store: &[u32]) {
    for i in 0..store.len() {
        print_word(store[i]);
    }
    io::write_all(STDOUT, b"\n");
}

// Returns how many words may have changed.
fn print_run(ticket: &[u8], store: &mut [u32]) -> usize {
    match entry_run::run(ticket, store) {
        Ok(n) => {
            print_count(n);
            print_words(store);
            store.len()
        }
        Err(r) => {
            print_refusal(r);
            0
        }
    }
}

fn part(b: u8) -> u32
    ensures { result < 256 }
{
    b as u32
}

fn store_word(bytes: &[u8], at: usize) -> u32
    requires { at + 4 ≤ length bytes.now }
{
    part(bytes[at])
        + 256 * part(bytes[at + 1])
        + 65536 * part(bytes[at + 2])
        + 16777216 * part(bytes[at + 3])
}

fn set_words(bytes: &[u8], store: &mut [u32])
    requires { length store.old * 4 ≤ length bytes.now }
{
    for i in 0..store.len() {
        store[i] = store_word(bytes, i * 4);
    }
}

// Whether the words from `first` on are as they were set.
fn is_as_set(bytes: &[u8], store: &[u32], first: usize) -> bool
    requires { length store.now * 4 ≤ length bytes.now }
{
    for i in first..store.len() {
        if store[i] != store_word(bytes, i * 4) {
            return false;
        }
    }
    true
}

fn try_run(ticket: &[u8], bytes: &[u8], store: &mut [u32], lent: usize)
    requires store_in_bounds { length store.old * 4 ≤ length bytes.now }
    requires lent_in_bounds { lent ≤ length store.old }
{
    set_words(bytes, store);
    let n = print_run(ticket, &mut store[..lent]);
    print_unless_kept(is_as_set(bytes, store, n));
}

// ---- cases

fn read_part(buffer: &mut [u8], n: usize)
    requires { n ≤ length buffer.old }
{
    io::read_full(STDIN, &mut buffer[..n]);
}

fn byte_value(b: u8) -> usize
    ensures { result < 256 }
{
    b as usize
}

// Two bytes, lowest first.
fn number_at(head: &[u8; 12], at: usize) -> usize
    requires { at + 2 ≤ 12 }
    ensures { result < 65536 }
{
    byte_value(head[at]) + 256 * byte_value(head[at + 1])
}

fn try_ticket(ticket: &[u8], head: &[u8; 12]) {
    let mut out = io::large_buffer();
    try_judge(ticket);
    try_write(ticket, &mut out, number_at(head, 2));
    try_list(ticket, &mut out, number_at(head, 4));
    try_quick(ticket, number_at(head, 8), number_at(head, 10));
}

fn try_store(ticket: &[u8], words: usize)
    requires { words ≤ 16384 }
{
    let mut bytes = io::large_buffer();
    let mut store = [0u32; 16384];
    read_part(&mut bytes, words * 4);
    try_run(ticket, &bytes, &mut store, words);
}

// Reads a case and prints its answers; or says that there is none.
fn try_next() -> bool {
    let mut head = [0u8; 12];
    if io::read_full(STDIN, &mut head) < 12 {
        return false;
    }
    let taken = number_at(&head, 0);
    let words = number_at(&head, 6);
    if 16384 < words {
        return false;
    }
    let mut ticket = io::large_buffer();
    read_part(&mut ticket, taken);
    let t = &ticket[..taken];
    try_ticket(t, &head);
    try_store(t, words);
    true
}

// Nothing says that the input ends: 65,536 cases are enough.
fn main() {
    for _ in 0..65536usize {
        if !try_next() {
            return;
        }
    }
}
