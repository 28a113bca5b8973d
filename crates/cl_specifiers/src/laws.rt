//! What holds of all types that are made.

ghost use Rattle.std.specs.Prelude.{◌≡◌, ◌<◌, ℕ, Bool, true};
ghost use Rattle.std.specs.Option.{IfSome};
ghost use Rattle.cl_types.specs.declared.types.CType.{CType};
ghost use Rattle.cl_types.specs.declared.types.Length.{Length};
ghost use Rattle.cl_types.specs.declared.types.Params.{Params};
ghost use Rattle.cl_types.specs.Normal.{are_normal, is_normal};
ghost use Rattle.cl_specifiers.specs.Derived.{adjusted, array_of, atomic_of, function_of, pointer_to, with_qualifiers};

/// Each derivation from types in normal form gives one in normal form: nothing in it is qualified twice, and no array, function or
/// type in error is qualified.
pub fn derivations_keep_normal_form()
    ensures array { (t : CType) (n : Length) (complete : Bool) → is_normal t ≡ true → IfSome (array_of t n complete) (λ made. is_normal made ≡ true) }
    ensures function { (t : CType) (ps : Params) → is_normal t ≡ true → are_normal ps ≡ true → IfSome (function_of t ps) (λ made. is_normal made ≡ true) }
    ensures pointer { (t : CType) → is_normal t ≡ true → IfSome (pointer_to t) (λ made. is_normal made ≡ true) }
    ensures adjusted { (q : ℕ) (t : CType) → q < 8 → is_normal t ≡ true → IfSome (adjusted q t) (λ made. is_normal made ≡ true) }
    ensures atomic { (t : CType) → is_normal t ≡ true → IfSome (atomic_of t) (λ made. is_normal made ≡ true) }
    ensures qualified { (q : ℕ) (atomic : Bool) (t : CType) → q < 8 → is_normal t ≡ true → IfSome (with_qualifiers q atomic t) (λ made. is_normal made ≡ true) }
{}
