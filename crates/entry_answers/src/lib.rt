// What the entries answer that give a count.
#![tactic(auto)]

use ticket_refusals::Refusal;

// The answer of judge, write, list and run: a count of iterations or of bytes.
pub type Answer = Result<usize, Refusal>;
