// The six entries for C (include/hurkeztor.h). Each contract equates the answer, and what everything lent holds in the end, with the
// definition of crate model (specs/Entries; of reason specs/Pairs); what is promised of the definitions is stated there, proofs/Demands. Then
// the sign of two indices.
#![tactic(auto)]

ghost use Rattle.std.specs.Prelude.{◌≡◌};
ghost use Rattle.integers.specs.Sign.{sign, sign_value};
ghost use Rattle.model.specs.Entries as Entries;
ghost use Rattle.model.specs.Pairs.{reason};
ghost use Rattle.entry_packing.specs.Packed.{packed, counted};
ghost use Rattle.entry_reason.specs.Records.{packed_reason, records_in};

use entry_reason::Pair;

#[unsafe(no_mangle)]
pub extern "C" fn hurkeztor_judge(ticket: &[u8]) -> u64
    ensures { result ≡ packed (Entries.judge ticket.now) }
{
    entry_packing::pack_answer(entry_judge::judge(ticket))
}

#[unsafe(no_mangle)]
pub extern "C" fn hurkeztor_write(ticket: &[u8], out: &mut [u8]) -> u64
    ensures { (result ≡ packed (Entries.write ticket.now out.old).answer)
        × (out.new ≡ (Entries.write ticket.now out.old).memory) }
{
    entry_packing::pack_answer(entry_write::write(ticket, out))
}

#[unsafe(no_mangle)]
pub extern "C" fn hurkeztor_list(ticket: &[u8], out: &mut [u8]) -> u64
    ensures { (result ≡ packed (Entries.list ticket.now out.old).answer)
        × (out.new ≡ (Entries.list ticket.now out.old).memory) }
{
    entry_packing::pack_answer(entry_list::list(ticket, out))
}

#[unsafe(no_mangle)]
pub extern "C" fn hurkeztor_quick(ticket: &[u8], first: usize, second: usize) -> u64
    ensures { result ≡ packed (counted (Entries.quick ticket.now first second)) }
{
    entry_packing::pack_test(entry_quick::quick(ticket, first, second))
}

#[unsafe(no_mangle)]
pub extern "C" fn hurkeztor_run(ticket: &[u8], store: &mut [u32]) -> u64
    ensures { (result ≡ packed (Entries.run_entry ticket.now store.old).answer)
        × (store.new ≡ (Entries.run_entry ticket.now store.old).memory) }
{
    entry_packing::pack_answer(entry_run::run(ticket, store))
}

// Fills as many records as there are, or as the list has. Everything below it goes by value.
#[unsafe(no_mangle)]
pub extern "C" fn hurkeztor_reason(ticket: &[u8], list: &mut [Pair]) -> u64
    ensures { (result ≡ packed_reason (reason ticket.now (records_in list.old)).answer)
        × (records_in list.new ≡ (reason ticket.now (records_in list.old)).list) }
{
    let mut f = entry_reason::begin(ticket, list.len());
    let n = f.most;
    for k in 0..n {
        f = entry_reason::next(ticket, f);
        list[k] = f.pair;
    }
    f.answer
}

// The sign that the directions have of a source index and a sink index, for callers that work out the vector of a pair.
#[unsafe(no_mangle)]
pub extern "C" fn hurkeztor_sign(source: i64, sink: i64) -> i64
    ensures { result ≡ sign_value (sign source sink) }
{
    integers::sign_of(source, sink)
}
