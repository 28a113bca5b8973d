//! Works a condition from token to token.

ghost use Rattle.std.specs.Prelude.{◌≡◌, ◌≤◌, ◌∷◌, [], reverse, IfOk, MatchOption, None};
ghost use Rattle.cl_const.specs.Operators.{infix_level};
ghost use Rattle.cl_cond.specs.code.Machine.{IsLoose, begun, closed, close_after, finished, gone_on, is_tight, passed_operator, passed_question, colon_after, rank, reduce, said, state_of, step, waiting};

use crate::outcome::{Outcome, choice_outcome, constant_outcome, infix_outcome, prefix_outcome};
use crate::word::{Class, Word};
use cl_base::{List, Mem};
use cl_const::{Operator, infix_level, is_prefix};
use std::alloc::Global;

/// What waits for an operand to its right.
#[derive(Clone, Copy)]
pub enum Frame {
    /// An open parenthesis.
    Open,
    /// An operator before its operand.
    Prefix {
        operator: Operator,
        place: u32,
    },
    /// An operator behind its left operand.
    Infix {
        operator: Operator,
        place: u32,
        left: Outcome,
    },
    /// A `?` behind its condition.
    Question {
        condition: Outcome,
    },
    /// A `:` behind the operand before it.
    Colon {
        condition: Outcome,
        first: Outcome,
    },
}

/// The state behind some tokens: what waits, the innermost last, and the operand that stands there, if one does.
#[derive(Drop)]
pub struct Machine {
    pub stack: List<Frame>,
    pub focus: Option<Outcome>,
}

/// How tight the frame binds. A bracket binds nothing.
fn rank(frame: Frame) -> u8
    ensures { result ≡ rank frame }
{
    match frame {
        Frame::Open | Frame::Question { .. } => 0,
        Frame::Colon { .. } => 1,
        Frame::Infix { operator, .. } => infix_level(operator),
        Frame::Prefix { .. } => 12,
    }
}

/// The frame with its operand.
fn closed(frame: Frame, operand: Outcome) -> Outcome
    ensures { result ≡ closed frame operand }
{
    match frame {
        Frame::Open | Frame::Question { .. } => operand,
        Frame::Prefix { operator, place } => prefix_outcome(operator, place, operand),
        Frame::Infix {
            operator,
            place,
            left,
        } => infix_outcome(operator, place, left, operand),
        Frame::Colon { condition, first } => choice_outcome(condition, first, operand),
    }
}

/// Whether there is an innermost frame, and it binds at least so tight.
fn is_tight(stack: &[Frame], least: u8) -> bool
    ensures { result ≡ is_tight least (reverse stack.now) }
{
    match stack.last() {
        Some(frame) => least <= rank(*frame),
        None => false,
    }
}

/// Takes the innermost frame, if it binds at least so tight.
fn take_tight(stack: &mut List<Frame>, least: u8) -> Option<Frame>
    ensures { MatchOption result (IsLoose least (reverse stack.old) × (stack.new ≡ stack.old)) (λ frame. (reverse stack.old ≡ frame ∷ reverse stack.new) × (least ≤ rank frame)) }
{
    if is_tight(stack.as_slice(), least) {
        stack.pop()
    } else {
        None
    }
}

/// The operand with all that binds at least so tight and waits for it.
fn reduced(stack: &mut List<Frame>, operand: Outcome, least: u8) -> Outcome
    ensures { reduce least (reverse stack.old) operand ≡ (reverse stack.new, result) }
{
    let mut outcome = operand;
    while let Some(frame) = take_tight(stack, least) {
        outcome = closed(frame, outcome);
    }
    outcome
}

impl Machine {
    /// The state before the first token. It takes no memory.
    pub fn new(alloc: Global) -> Machine
        ensures stack { result.stack ≡ [] }
        ensures focus { result.focus ≡ None }
    {
        Machine {
            stack: List::new(alloc),
            focus: None,
        }
    }

    /// Takes the next token, and says whether it may stand there.
    pub fn take(&mut self, word: Word) -> Mem<bool>
        ensures { IfOk result (λ fine. said fine (state_of self.new) ≡ step (state_of self.old) word) }
    {
        match self.focus {
            None => self.begin(word),
            Some(operand) => self.go_on(word, operand),
        }
    }

    /// Takes a token where an operand is to begin.
    fn begin(&mut self, word: Word) -> Mem<bool>
        ensures { IfOk result (λ fine. said fine (state_of self.new) ≡ begun (reverse self.old.stack) word.place word.class) }
    {
        match word.class {
            Class::Operand(constant) => {
                self.focus = Some(constant_outcome(constant, word.place));
                Ok(true)
            }
            Class::Open => self.wait(Frame::Open),
            Class::Operator(operator) => {
                if is_prefix(operator) {
                    self.wait(Frame::Prefix {
                        operator,
                        place: word.place,
                    })
                } else {
                    Ok(false)
                }
            }
            _ => Ok(false),
        }
    }

    /// Takes a token behind an operand.
    fn go_on(&mut self, word: Word, operand: Outcome) -> Mem<bool>
        ensures { IfOk result (λ fine. said fine (state_of self.new) ≡ gone_on (reverse self.old.stack) operand word.place word.class) }
    {
        match word.class {
            Class::Operator(operator) => self.pass_operator(operator, word.place, operand),
            Class::Question => self.pass_question(operand),
            Class::Colon => self.pass_colon(operand),
            Class::Close => Ok(self.pass_close(operand)),
            _ => Ok(false),
        }
    }

    /// From here on an operand is to come, for this frame.
    fn wait(&mut self, frame: Frame) -> Mem<bool>
        ensures { IfOk result (λ fine. said fine (state_of self.new) ≡ waiting (frame ∷ reverse self.old.stack)) }
    {
        self.stack.push(frame)?;
        self.focus = None;
        Ok(true)
    }

    fn pass_operator(&mut self, operator: Operator, place: u32, operand: Outcome) -> Mem<bool>
        ensures { IfOk result (λ fine. said fine (state_of self.new) ≡ passed_operator operator place (reduce (infix_level operator) (reverse self.old.stack) operand)) }
    {
        let level = infix_level(operator);
        if level < 2 {
            return Ok(false);
        }
        let left = reduced(&mut self.stack, operand, level);
        self.wait(Frame::Infix {
            operator,
            place,
            left,
        })
    }

    fn pass_question(&mut self, operand: Outcome) -> Mem<bool>
        ensures { IfOk result (λ fine. said fine (state_of self.new) ≡ passed_question (reduce 2 (reverse self.old.stack) operand)) }
    {
        let condition = reduced(&mut self.stack, operand, 2);
        self.wait(Frame::Question { condition })
    }

    fn pass_colon(&mut self, operand: Outcome) -> Mem<bool>
        ensures { IfOk result (λ fine. said fine (state_of self.new) ≡ (let r = reduce 1 (reverse self.old.stack) operand in colon_after r.0 r.1)) }
    {
        let first = reduced(&mut self.stack, operand, 1);
        match self.stack.pop() {
            Some(Frame::Question { condition }) => self.wait(Frame::Colon { condition, first }),
            _ => Ok(false),
        }
    }

    fn pass_close(&mut self, operand: Outcome) -> bool
        ensures { said result (state_of self.new) ≡ (let r = reduce 1 (reverse self.old.stack) operand in close_after r.0 r.1) }
    {
        let inner = reduced(&mut self.stack, operand, 1);
        match self.stack.pop() {
            Some(Frame::Open) => {
                self.focus = Some(inner);
                true
            }
            _ => false,
        }
    }

    /// What all the tokens come to, if they are an expression.
    pub fn finish(&mut self) -> Option<Outcome>
        ensures { result ≡ finished (state_of self.old) }
    {
        let Some(operand) = self.focus else {
            return None;
        };
        let outcome = reduced(&mut self.stack, operand, 1);
        if self.stack.is_empty() {
            Some(outcome)
        } else {
            None
        }
    }
}
