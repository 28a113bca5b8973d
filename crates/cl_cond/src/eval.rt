//! The value of a condition.

ghost use Rattle.std.specs.Prelude.{◌≡◌, ◌<◌, ◌^◌, IfOk};
ghost use Rattle.cl_cond.specs.Words.{words_from};
ghost use Rattle.cl_cond.specs.Conditions.{EvaluatesTo};
ghost use Rattle.cl_cond.specs.code.Outcomes.{answer_of};

use crate::machine::Machine;
use crate::outcome::Outcome;
use crate::word::{Word, class_of};
use cl_base::{Mem, Memory, PpToken};
use std::alloc::Global;

/// The most tokens that have their numbers: 2^32 - 1.
const MOST: usize = 0xffff_ffff;

/// What a condition comes to.
#[derive(Clone, Copy)]
pub enum IfValue {
    /// A value of 64 bits: as `uintmax_t` if it is unsigned, else as `intmax_t` in two's complement.
    Value { bits: u64, unsigned: bool },
    /// The condition has no value. The token of this number, from 0, is the first one that no integer constant
    /// expression has after those before it; where one is missing at the end it is the number of tokens. In an
    /// expression it is the operator that fails first, or the constant whose value is needed and isn't known, where
    /// operands are worked from left to right and before their operator.
    BadIf { place: u32 },
}

/// The value of the condition of `#if` or `#elif` (N1570 6.10.1, 6.6), whose macros are replaced and whose `defined` are
/// decided: each identifier that is left counts 0. 2^32 tokens or more are want of memory.
pub fn eval_if(alloc: Global, tokens: &[PpToken]) -> Mem<IfValue>
    ensures { IfOk result (λ value. EvaluatesTo (words_from 0 tokens.now) value) }
{
    if tokens.len() > MOST {
        return Err(Memory);
    }
    let mut machine = Machine::new(alloc);
    let mut at = 0;
    while at < tokens.len() {
        let place = at as u32;
        let word = Word {
            place,
            class: class_of(&tokens[at]),
        };
        let fits = machine.take(word)?;
        if !fits {
            return Ok(IfValue::BadIf { place });
        }
        at += 1;
    }
    Ok(answer_of(machine.finish(), tokens.len() as u32))
}

/// The answer of this outcome, or of none.
fn answer_of(outcome: Option<Outcome>, end: u32) -> IfValue
    ensures { result ≡ answer_of outcome end }
{
    match outcome {
        Some(Outcome::Value(number)) => IfValue::Value {
            bits: number.as_unsigned(),
            unsigned: number.is_unsigned(),
        },
        Some(Outcome::Fails { place, .. }) => IfValue::BadIf { place },
        None => IfValue::BadIf { place: end },
    }
}
