// The words of a ticket, read one after another: each in its range, or the refusal of that word.
#![tactic(auto)]

ghost use Rattle.std.specs.Prelude.{◌≡◌, ℕ, ◌+◌, ◌*◌, ◌<◌, ◌≤◌, pos, length, take, IfOk};
ghost use Rattle.model.specs.Words.{signed};
ghost use Rattle.model.specs.Grammar.{most_loops};
ghost use Rattle.ticket_words.specs.Reached.{Reached};
ghost use Rattle.ticket_words.specs.Ranges.{Ranged};

use model::LOOPS;
use ticket_refusals::Refusal;

// A ticket's bytes, and the number of the next word, from 1.
#[derive(Clone, Copy)]
pub struct Words<'a> {
    pub bytes: &'a [u8],
    pub next: usize,
    ghost reached: { Reached bytes.now next },
}

// Two's complement.
pub fn signed_of(v: u16) -> i32
    ensures { result ≡ signed v }
{
    if v < 32768 {
        v as i32
    } else {
        (v as i32) - 65536
    }
}

// The number of a word's bits, from lo to hi; else the refusal.
fn in_range(v: u16, lo: usize, hi: usize, outside: Refusal) -> Result<usize, Refusal>
    requires { hi < 32768 }
    ensures { Ranged v lo hi outside result }
{
    let n = v as usize;
    if n < lo {
        return Err(outside);
    }
    if hi < n {
        return Err(outside);
    }
    Ok(n)
}

impl<'a> Words<'a> {
    ghost use Rattle.model.specs.Grammar.{count, natural, number, loop_number, times, between};
    ghost use Rattle.ticket_words.specs.Reads.{ReadsBits, Reads, plain};

    pub fn new(bytes: &'a [u8]) -> Words<'a>
        ensures { (result.bytes.now ≡ bytes.now) × (result.next ≡ 1) }
    {
        Words { bytes, next: 1 }
    }

    // A word as its 16 bits. Drawn in, as `number`, `row` and `ticket_loops::read_affine` are: with a call for each, reading took a third more time.
    #[inline(always)]
    pub fn bits(&mut self) -> Result<u16, Refusal>
        ensures { ReadsBits self.old result self.new }
    {
        let low = (self.next - 1) * 2;
        if self.bytes.len() <= low + 1 {
            return Err(Refusal::Truncated(self.next));
        }
        self.next += 1;
        Ok(self.bytes[low] as u16 + 256 * (self.bytes[low + 1] as u16))
    }

    // A count from lo to hi.
    pub fn count(&mut self, lo: usize, hi: usize) -> Result<usize, Refusal>
        requires { hi < 32768 }
        ensures reads { Reads plain (count lo hi) self.old result self.new }
        ensures within { IfOk result (λ n. (lo ≤ n) × (n ≤ hi)) }
    {
        let at = self.next;
        let v = self.bits()?;
        in_range(v, lo, hi, Refusal::CountOutOfRange(at))
    }

    // Another number from lo to hi, none below 0.
    pub fn natural(&mut self, lo: usize, hi: usize) -> Result<usize, Refusal>
        requires { hi < 32768 }
        ensures reads { Reads plain (natural lo hi) self.old result self.new }
        ensures within { IfOk result (λ n. (lo ≤ n) × (n ≤ hi)) }
    {
        let at = self.next;
        let v = self.bits()?;
        in_range(v, lo, hi, Refusal::WordOutOfRange(at))
    }

    // The number of a loop, from lo to hi, named by a step.
    pub fn loop_number(&mut self, step: usize, lo: usize, hi: usize) -> Result<usize, Refusal>
        requires { hi < 32768 }
        ensures reads { Reads plain (loop_number step (between (pos lo) (pos hi))) self.old result self.new }
        ensures within { IfOk result (λ n. (lo ≤ n) × (n ≤ hi)) }
    {
        let at = self.next;
        let w = self.bits()?;
        if w == 32768 {
            return Err(Refusal::WordOutOfRange(at));
        }
        in_range(w, lo, hi, Refusal::LoopOutOfNest(step))
    }

    // Any number but −32768.
    #[inline(always)]
    pub fn number(&mut self) -> Result<i32, Refusal>
        ensures { Reads plain number self.old result self.new }
    {
        let at = self.next;
        let v = self.bits()?;
        if v == 32768 {
            return Err(Refusal::WordOutOfRange(at));
        }
        Ok(signed_of(v))
    }

    // One number for each of n loops.
    #[inline(always)]
    pub fn row(&mut self, n: usize) -> Result<[i32; LOOPS], Refusal>
        requires { n ≤ most_loops }
        ensures reads { Reads (take n) (times n number) self.old result self.new }
        ensures wide { IfOk result (λ row. length row ≡ most_loops) }
    {
        let mut row = [0i32; LOOPS];
        for k in 0..n {
            row[k] = self.number()?;
        }
        Ok(row)
    }
}
