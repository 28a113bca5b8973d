//! What holds of every constant, and of every operator.

ghost use Rattle.std.specs.Prelude.{◌≡◌, ◌↔◌, ℕ, List, Some};
ghost use Rattle.cl_const.specs.declared.number.Number.{Number};
ghost use Rattle.cl_const.specs.declared.operators.Operator.{Operator};
ghost use Rattle.cl_const.specs.Integers.{IsInteger, integer};
ghost use Rattle.cl_const.specs.Numbers.{is_unsigned};
ghost use Rattle.cl_const.specs.Operators.{IsOfType, apply, apply_prefix, infix_unsigned, prefix_unsigned};
ghost use Rattle.cl_const.specs.Utf8.{IsCharacter, code_point};

/// The integer constants are those of the grammar (N1570 6.4.4.1), with the type that the first of their list is that
/// holds the value.
pub fn integers_by_grammar()
    ensures { (text : List ℕ) (n : Number) → (integer text ≡ Some n) ↔ IsInteger text n }
{}

/// The characters outside ASCII are those that UTF-8 writes so.
pub fn characters_by_utf8()
    ensures { (bytes : List ℕ) (code : ℕ) → (code_point bytes ≡ Some code) ↔ IsCharacter bytes code }
{}

/// What an operator gives has the type that goes by those of its operands (N1570 6.5).
pub fn results_have_types()
    ensures prefix { (o : Operator) (x : Number) → IsOfType (prefix_unsigned o (is_unsigned x)) (apply_prefix o x) }
    ensures infix { (o : Operator) (x y : Number) → IsOfType (infix_unsigned o (is_unsigned x) (is_unsigned y)) (apply o x y) }
{}
