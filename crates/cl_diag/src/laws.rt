//! What holds of all diagnostics.

ghost use Rattle.std.specs.Prelude.{◌≡◌, List};
ghost use Rattle.cl_base.specs.declared.token.Diag.{Diag};
ghost use Rattle.cl_diag.specs.Order.{IsInOrder};

/// Diagnostics have one order.
pub fn one_order()
    ensures { (diags x y : List Diag) → IsInOrder diags x → IsInOrder diags y → x ≡ y }
{}

/// All diagnostics have an order.
pub fn some_order()
    ensures { (diags : List Diag) → (all : List Diag) × IsInOrder diags all }
{}
