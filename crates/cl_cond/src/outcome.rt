//! What the parts of a condition come to.

ghost use Rattle.std.specs.Prelude.{◌≡◌};
ghost use Rattle.cl_cond.specs.code.Outcomes.{applied, choice_outcome, constant_outcome, given, in_type, infix_outcome, logical_outcome, outcome_unsigned, prefix_outcome, truth_of};

use cl_const::{Constant, Number, Operator, apply, apply_prefix, infix_unsigned, prefix_unsigned};

/// What an expression comes to: a value, or the token at this place fails first. The type is known in both.
#[derive(Clone, Copy)]
pub enum Outcome {
    Value(Number),
    Fails { place: u32, unsigned: bool },
}

/// What a constant at this place comes to. One whose value isn't known fails where it is worked.
pub fn constant_outcome(constant: Constant, place: u32) -> Outcome
    ensures { result ≡ constant_outcome place constant }
{
    match constant {
        Constant::Known(number) => Outcome::Value(number),
        Constant::Unknown { unsigned } => Outcome::Fails { place, unsigned },
    }
}

/// Whether its type is unsigned.
fn outcome_unsigned(outcome: Outcome) -> bool
    ensures { result ≡ outcome_unsigned outcome }
{
    match outcome {
        Outcome::Value(number) => number.is_unsigned(),
        Outcome::Fails { unsigned, .. } => unsigned,
    }
}

/// What an operation gives, which fails where there is no value.
fn given(number: Option<Number>, place: u32, unsigned: bool) -> Outcome
    ensures { result ≡ given number place unsigned }
{
    match number {
        Some(number) => Outcome::Value(number),
        None => Outcome::Fails { place, unsigned },
    }
}

/// An operator and its one operand.
pub fn prefix_outcome(operator: Operator, place: u32, operand: Outcome) -> Outcome
    ensures { result ≡ prefix_outcome operator place operand }
{
    match operand {
        Outcome::Value(number) => given(
            apply_prefix(operator, number),
            place,
            prefix_unsigned(operator, number.is_unsigned()),
        ),
        Outcome::Fails { place, unsigned } => {
            Outcome::Fails {
                place,
                unsigned: prefix_unsigned(operator, unsigned),
            }
        }
    }
}

/// An operator between its two operands.
pub fn infix_outcome(operator: Operator, place: u32, left: Outcome, right: Outcome) -> Outcome
    ensures { result ≡ infix_outcome operator place left right }
{
    match operator {
        Operator::Or => logical_outcome(true, left, right),
        Operator::And => logical_outcome(false, left, right),
        _ => applied(operator, place, left, right),
    }
}

/// An operator both of whose operands are worked.
fn applied(operator: Operator, place: u32, left: Outcome, right: Outcome) -> Outcome
    ensures { result ≡ applied operator place left right }
{
    let unsigned = infix_unsigned(operator, outcome_unsigned(left), outcome_unsigned(right));
    match (left, right) {
        (Outcome::Fails { place, .. }, _) => Outcome::Fails { place, unsigned },
        (_, Outcome::Fails { place, .. }) => Outcome::Fails { place, unsigned },
        (Outcome::Value(left), Outcome::Value(right)) => {
            given(apply(operator, left, right), place, unsigned)
        }
    }
}

/// `||`, which the left operand settles where it is true, or `&&`, where it is false.
fn logical_outcome(settled_by: bool, left: Outcome, right: Outcome) -> Outcome
    ensures { result ≡ logical_outcome settled_by left right }
{
    match left {
        Outcome::Fails { place, .. } => Outcome::Fails {
            place,
            unsigned: false,
        },
        Outcome::Value(number) => {
            if number.is_true() == settled_by {
                Outcome::Value(Number::truth(settled_by))
            } else {
                truth_of(right)
            }
        }
    }
}

/// Whether the operand is true.
fn truth_of(operand: Outcome) -> Outcome
    ensures { result ≡ truth_of operand }
{
    match operand {
        Outcome::Value(number) => Outcome::Value(Number::truth(number.is_true())),
        Outcome::Fails { place, .. } => Outcome::Fails {
            place,
            unsigned: false,
        },
    }
}

/// `?:`. Only one of the last two operands is worked, but both make the type.
pub fn choice_outcome(condition: Outcome, first: Outcome, second: Outcome) -> Outcome
    ensures { result ≡ choice_outcome condition first second }
{
    let unsigned = outcome_unsigned(first) || outcome_unsigned(second);
    match condition {
        Outcome::Fails { place, .. } => Outcome::Fails { place, unsigned },
        Outcome::Value(number) => {
            if number.is_true() {
                in_type(unsigned, first)
            } else {
                in_type(unsigned, second)
            }
        }
    }
}

/// An outcome in the type that is asked for.
fn in_type(unsigned: bool, outcome: Outcome) -> Outcome
    ensures { result ≡ in_type unsigned outcome }
{
    match outcome {
        Outcome::Value(number) => Outcome::Value(number.converted(unsigned)),
        Outcome::Fails { place, .. } => Outcome::Fails { place, unsigned },
    }
}
