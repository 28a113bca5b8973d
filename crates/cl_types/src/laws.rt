//! What holds of all types.

ghost use Rattle.std.specs.Prelude.{◌≡◌, ◌<◌, ℕ, true};
ghost use Rattle.cl_types.specs.declared.types.CType.{CType};
ghost use Rattle.cl_types.specs.Compatible.{compatible};
ghost use Rattle.cl_types.specs.Composite.{composite};
ghost use Rattle.cl_types.specs.Form.{unqualified};
ghost use Rattle.cl_types.specs.Normal.{are_normal, is_normal};
ghost use Rattle.cl_types.specs.Qualify.{qualified};
ghost use Rattle.cl_types.specs.declared.types.CType.TheVariants as make;
ghost use Rattle.cl_types.specs.declared.types.Length.{Length};
ghost use Rattle.cl_types.specs.declared.types.Params.{Params};

/// Of two types, each is compatible with the other or neither is.
pub fn either_way()
    ensures { (a b : CType) → compatible a b ≡ compatible b a }
{}

/// A type is compatible with itself.
pub fn with_itself()
    ensures { (a : CType) → compatible a a ≡ true }
{}

/// A composite of compatible types is compatible with both, where both are in normal form.
pub fn with_both()
    ensures { (a b : CType) → is_normal a ≡ true → is_normal b ≡ true → compatible a b ≡ true → (compatible (composite a b) a ≡ true) × (compatible (composite a b) b ≡ true) }
{}

/// Types in normal form stay in it: under a pointer, in an array and as its elements, with qualifiers added, as a composite, as what a function gives
/// and takes, without their own qualifiers, as `_Atomic(T)`, and with `_Atomic` within their qualifiers.
pub fn normal_forms()
    ensures pointer { (t : CType) → is_normal t ≡ true → is_normal (make.Pointer t) ≡ true }
    ensures array { (t : CType) (n : Length) → is_normal t ≡ true → is_normal (make.Array t n) ≡ true }
    ensures element { (t : CType) (n : Length) → is_normal (make.Array t n) ≡ true → is_normal t ≡ true }
    ensures qualified { (q : ℕ) (t : CType) → q < 8 → is_normal t ≡ true → is_normal (qualified q t) ≡ true }
    ensures composite { (a b : CType) → is_normal a ≡ true → is_normal b ≡ true → is_normal (composite a b) ≡ true }
    ensures function { (t : CType) (ps : Params) → is_normal t ≡ true → are_normal ps ≡ true → is_normal (make.Function t ps) ≡ true }
    ensures unqualified { (t : CType) → is_normal t ≡ true → is_normal (unqualified t) ≡ true }
    ensures atomic { (t : CType) → is_normal t ≡ true → is_normal (make.Atomic t) ≡ true }
    ensures atomic_within { (q : ℕ) (t : CType) → is_normal (make.Qualified q t) ≡ true → is_normal (make.Qualified q (make.Atomic t)) ≡ true }
{}
