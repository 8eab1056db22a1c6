// The statements of a ticket, read onto flat slices (`nest_flat`, specs/Layout).
#![tactic(auto)]

ghost use Rattle.std.specs.Prelude.{◌≡◌, ◌+◌, ◌<◌, ◌≤◌, cond, eqb, length};
ghost use Rattle.model.specs.Grammar.{most_writes, most_reads, most_accesses, most_words};
ghost use Rattle.ticket_statements.specs.Statements.{ReadsAccess, ReadsAccesses, ReadsStatement, ReadsStatements};

pub mod accesses;

use accesses::{Accesses, Nest};
use model::{ACCESSES, ARRAY_ROOM, DIMENSIONS, READS, ROW_ROOM, STATEMENTS};
use ticket_refusals::Refusal;
use ticket_words::Words;

// With the number of its accesses.
#[derive(Clone, Copy)]
struct Statement {
    rule: usize,
    constant: usize,
    size: usize,
}

// The first `count` statements, and of the first `accesses` accesses of all of them the numbers of their arrays, as `nest_flat::Header` has them.
#[derive(Clone, Copy)]
pub struct StatementsRead {
    pub count: usize,
    pub sizes: [usize; STATEMENTS],
    pub rules: [usize; STATEMENTS],
    pub constants: [usize; STATEMENTS],
    pub accesses: usize,
    pub accessed: [usize; ACCESSES],
}

// The number of an array, from 1, and a subscript for each of its dimensions.
fn read_access(
    words: &mut Words,
    nest: Nest,
    laid: &mut [i16],
    accesses: &mut Accesses,
) -> Result<(), Refusal>
    requires { (length laid.old ≡ most_words) × (accesses.old.count < most_accesses) }
    ensures { ReadsAccess nest.entry words.old laid.old laid.new accesses.old accesses.new result words.new }
{
    let array = words.natural(1, nest.extents.len() / ARRAY_ROOM)? - 1;
    let k = accesses.count;
    for d in 0..nest.extents[array * ARRAY_ROOM] {
        let subscript = ticket_loops::read_affine(words, nest.depth)?;
        ticket_loops::lay_affine(laid, (k * DIMENSIONS + d) * ROW_ROOM, subscript, nest.depth);
    }
    accesses.accessed[k] = array;
    accesses.count += 1;
    Ok(())
}

// A count from `least` on and as many accesses. It answers how many.
fn read_accesses(
    words: &mut Words,
    least: usize,
    nest: Nest,
    laid: &mut [i16],
    accesses: &mut Accesses,
) -> Result<usize, Refusal>
    requires { (length laid.old ≡ most_words) × (accesses.old.count + most_reads ≤ most_accesses) }
    ensures { ReadsAccesses least nest.entry words.old laid.old laid.new accesses.old accesses.new result words.new }
{
    let count = words.count(least, READS)?;
    for i in 0..count {
        read_access(words, nest, laid, accesses)?;
    }
    Ok(count)
}

// Under rule 3 the constant must be 0, and there must be a read.
fn most_constant(rule: usize) -> usize
    ensures { (result ≡ cond (eqb rule 3) 0 32767) × (result < 32768) }
{
    if rule == 3 { 0 } else { 32767 }
}

fn least_reads(rule: usize) -> usize
    ensures { result ≡ cond (eqb rule 3) 1 0 }
{
    if rule == 3 { 1 } else { 0 }
}

// Rule, constant, the access written, and those read.
fn read_statement(
    words: &mut Words,
    nest: Nest,
    laid: &mut [i16],
    accesses: &mut Accesses,
) -> Result<Statement, Refusal>
    requires { (length laid.old ≡ most_words) × (accesses.old.count + (most_writes + most_reads) ≤ most_accesses) }
    ensures { ReadsStatement nest.entry words.old laid.old laid.new accesses.old accesses.new result words.new }
{
    let rule = words.natural(0, 3)?;
    let constant = words.natural(0, most_constant(rule))?;
    read_access(words, nest, laid, accesses)?;
    let reads = read_accesses(words, least_reads(rule), nest, laid, accesses)?;
    Ok(Statement {
        rule,
        constant,
        size: reads + 1,
    })
}

// The section: a count and as many statements, in body order.
pub fn read_statements(
    words: &mut Words,
    nest: Nest,
    laid: &mut [i16],
) -> Result<StatementsRead, Refusal>
    requires { length laid.old ≡ most_words }
    ensures { ReadsStatements nest.entry words.old laid.old laid.new result words.new }
{
    let count = words.count(1, STATEMENTS)?;
    let mut accesses = Accesses {
        accessed: [0usize; ACCESSES],
        count: 0,
    };
    let mut sizes = [0usize; STATEMENTS];
    let mut rules = [0usize; STATEMENTS];
    let mut constants = [0usize; STATEMENTS];
    for i in 0..count {
        let statement = read_statement(words, nest, laid, &mut accesses)?;
        sizes[i] = statement.size;
        rules[i] = statement.rule;
        constants[i] = statement.constant;
    }
    let accessed = accesses.accessed;
    Ok(StatementsRead {
        count,
        sizes,
        rules,
        constants,
        accesses: accesses.count,
        accessed,
    })
}
