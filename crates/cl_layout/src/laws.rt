//! What holds of layouts, and of each structure whose layout is known.

ghost use Rattle.std.specs.Prelude.{◌≡◌, ◌*◌, ℕ, ℤ, Bool, List, Option, Some, false};
ghost use Rattle.cl_types.specs.declared.unit.Member.{Member};
ghost use Rattle.cl_layout.specs.declared.layout.Layout.{Layout};
ghost use Rattle.cl_layout.specs.declared.layout.Layout.TheVariants as make;
ghost use Rattle.cl_layout.specs.Layouts.{AreLayouts, content_layout, member_offsets};
ghost use Rattle.cl_layout.specs.Ordered.{IsOrdered};
ghost use Rattle.cl_layout.specs.Ranges.{InRange};
ghost use Rattle.cl_layout.specs.Constants.{constant};
ghost use Rattle.cl_layout.specs.Worths.{integer_kind};
ghost use Rattle.cl_layout.specs.declared.constants.Value.TheVariants as value;
ghost use Rattle.cl_types.specs.declared.expressions.TypedExpr.{TypedExpr, out-TypedExpr};
ghost use Rattle.cl_types.specs.declared.types.Basic.{Basic};
ghost use Rattle.cl_layout.specs.Places.{AreInPlace, LieApart, extents};

/// Where each member stands behind those that its type is made of, structures and unions have one layout at most.
pub fn one_layout()
    ensures { (content : ℕ → Option (List Member)) (f g : Bool → ℕ → Layout) → IsOrdered content → AreLayouts content f → AreLayouts content g → (union : Bool) (tag : ℕ) → f union tag ≡ g union tag }
{}

/// And there they have one.
pub fn some_layouts()
    ensures { (content : ℕ → Option (List Member)) → IsOrdered content → (layouts : Bool → ℕ → Layout) × AreLayouts content layouts }
{}

/// No two members of a structure share a bit, and each lies within it.
pub fn members_apart()
    ensures { (layouts : Bool → ℕ → Layout) (members : List Member) (size align : ℕ) → content_layout layouts false (Some members) ≡ make.Known size align → LieApart 0 (member_offsets layouts false (Some members)) (extents layouts members) (8 * size) }
{}

/// A member of a structure that is no bit-field begins at a multiple of its alignment, and a bit-field lies within one unit of its
/// type.
pub fn members_in_place()
    ensures { (layouts : Bool → ℕ → Layout) (members : List Member) (size align : ℕ) → content_layout layouts false (Some members) ≡ make.Known size align → AreInPlace layouts (member_offsets layouts false (Some members)) members }
{}

/// A constant expression whose value is known has an integer type, and the value is one of that type (6.6p4, p6).
pub fn known_in_range()
    ensures { (layouts : Bool → ℕ → Layout) (e : TypedExpr) (v : ℤ) → constant layouts e ≡ value.Known v → (kind : Basic) × ((integer_kind (out-TypedExpr e).operand.ty ≡ Some kind) × InRange kind v) }
{}
