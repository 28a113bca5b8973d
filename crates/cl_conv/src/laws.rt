//! What holds of all conversions.

ghost use Rattle.std.specs.Prelude.{◌≡◌, true};
ghost use Rattle.std.specs.Option.{IfSome};
ghost use Rattle.cl_types.specs.declared.types.CType.{CType};
ghost use Rattle.cl_types.specs.declared.expressions.BinaryOp.{BinaryOp};
ghost use Rattle.cl_types.specs.declared.expressions.Operand.{Operand};
ghost use Rattle.cl_types.specs.declared.expressions.UnaryOp.{UnaryOp};
ghost use Rattle.cl_types.specs.declared.unit.Member.{Member};
ghost use Rattle.cl_types.specs.Normal.{is_normal};
ghost use Rattle.cl_conv.specs.declared.members.Access.{Access};
ghost use Rattle.cl_conv.specs.MemberOf.{member_of};
ghost use Rattle.cl_conv.specs.Unary.{call, cast, conditional, unary};
ghost use Rattle.cl_conv.specs.Operands.{is_arithmetic};
ghost use Rattle.cl_conv.specs.Operators.{binary, is_converted, promote, usual};

/// The usual arithmetic conversions don't ask which operand is the left one, and of arithmetic types they give one of `int`,
/// `unsigned int`, `long`, `unsigned long`, `long long`, `unsigned long long`, `float`, `double` and `long double` (6.3.1.8).
pub fn usual_conversions()
    ensures either_way { (a b : CType) → usual a b ≡ usual b a }
    ensures listed { (a b : CType) → is_arithmetic a ≡ true → is_arithmetic b ≡ true → is_converted (usual a b) ≡ true }
{}

/// What is promoted is promoted to itself.
pub fn promotions()
    ensures { (t : CType) → promote (promote t) ≡ promote t }
{}

/// What each operator gives of operands whose types are in normal form has a type in normal form: nothing in it is qualified twice, and
/// no array, function or type in error is qualified.
pub fn results_keep_normal_form()
    ensures unary { (op : UnaryOp) (a : Operand) → is_normal a.ty ≡ true → IfSome (unary op a) (λ made. is_normal made.ty ≡ true) }
    ensures binary { (op : BinaryOp) (a b : Operand) → is_normal a.ty ≡ true → is_normal b.ty ≡ true → IfSome (binary op a b) (λ made. is_normal made.ty ≡ true) }
    ensures conditional { (c a b : Operand) → is_normal a.ty ≡ true → is_normal b.ty ≡ true → IfSome (conditional c a b) (λ made. is_normal made.ty ≡ true) }
    ensures cast { (to : CType) (a : Operand) → is_normal to ≡ true → IfSome (cast to a) (λ made. is_normal made.ty ≡ true) }
    ensures call { (a : Operand) → is_normal a.ty ≡ true → IfSome (call a) (λ made. is_normal made.ty ≡ true) }
    ensures member { (how : Access) (a : Operand) (m : Member) → is_normal a.ty ≡ true → is_normal m.ty ≡ true → IfSome (member_of how a m) (λ made. is_normal made.ty ≡ true) }
{}
