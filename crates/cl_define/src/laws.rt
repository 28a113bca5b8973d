//! What holds of every line.

ghost use Rattle.std.specs.Prelude.{◌≡◌, ◌⊎◌, List};
ghost use Rattle.cl_base.specs.declared.macros.Macro.{Macro};
ghost use Rattle.cl_base.specs.declared.token.Span.{Span};
ghost use Rattle.cl_base.specs.declared.token.Token.{Token};
ghost use Rattle.cl_define.specs.Definitions.{Defines};

/// A line defines one macro at most.
pub fn one_definition()
    ensures { (place : Span) (line : List Token) (x y : Macro) → Defines place line x → Defines place line y → x ≡ y }
{}

/// Every line defines a macro, or defines none.
pub fn some_definition()
    ensures { (place : Span) (line : List Token) → ((mac : Macro) × Defines place line mac) ⊎ ((mac : Macro) → Defines place line mac → ⊥) }
{}
