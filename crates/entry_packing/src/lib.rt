// An answer in one number: document 01's number, the place and the count.
#![tactic(auto)]

ghost use Rattle.std.specs.Prelude.{◌≡◌};
ghost use Rattle.ticket_refusals.specs.Refusals.{number_of, place_of, answer_of};
ghost use Rattle.entry_quick.specs.Answers as Tests;
ghost use Rattle.entry_packing.specs.Packed.{fields, packed, counted};

use entry_answers::Answer;
use entry_quick::Meeting;
use ticket_refusals::Refusal;

pub fn pack(number: usize, place: usize, count: usize) -> u64
    ensures { result ≡ fields number place count }
{
    let n = (number % 256) as u64;
    let p = (place % 16777216) as u64;
    let c = (count % 4294967296) as u64;
    n + p * 256 + c * 4294967296
}

fn pack_refusal(r: Refusal) -> u64
    ensures { result ≡ fields (number_of r) (place_of r) 0 }
{
    pack(r.number(), r.place(), 0)
}

pub fn pack_answer(answer: Answer) -> u64
    ensures { result ≡ packed (answer_of answer) }
{
    match answer {
        Ok(n) => pack(0, 0, n),
        Err(r) => pack_refusal(r),
    }
}

pub fn pack_test(test: Result<Meeting, Refusal>) -> u64
    ensures { result ≡ packed (counted (Tests.answer_of test)) }
{
    match test {
        Ok(Meeting::Apart) => pack(0, 0, 1),
        Ok(Meeting::Perhaps) => pack(0, 0, 0),
        Err(r) => pack_refusal(r),
    }
}
