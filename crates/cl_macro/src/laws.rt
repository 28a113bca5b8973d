//! What holds of every run, and of the macros that are there before a text begins.

ghost use Rattle.std.specs.Prelude.{◌≡◌, ℕ, List, Option, All, []};
ghost use Rattle.cl_base.specs.declared.config.Define.{Define};
ghost use Rattle.cl_base.specs.declared.macros.Macro.{Macro};
ghost use Rattle.cl_base.specs.declared.macros.MacroNo.{MacroNo};
ghost use Rattle.cl_base.specs.declared.token.Kind.{Kind};
ghost use Rattle.cl_base.specs.declared.token.PpToken.{PpToken};
ghost use Rattle.cl_base.specs.declared.token.Span.{Span};
ghost use Rattle.cl_macro.specs.declared.expanded.Expanded.{Expanded};
ghost use Rattle.cl_macro.specs.Rules.{Rules, TellsTokens};
ghost use Rattle.cl_macro.specs.Expansions.{IsExpansion, IsPlain};
ghost use Rattle.cl_macro.specs.Starting.{Given};

/// A run comes to one result.
pub fn one_expansion()
    ensures { (rules_at : Span → Rules) (events : List ℕ → Option MacroNo) (run : List PpToken) (x y : Expanded) → IsExpansion rules_at events run x → IsExpansion rules_at events run y → x ≡ y }
{}

/// Every run comes to a result.
pub fn some_expansion()
    ensures { (rules_at : Span → Rules) (events : List ℕ → Option MacroNo) (run : List PpToken) → (all : Expanded) × IsExpansion rules_at events run all }
{}

/// The tokens of a run without macro names are the run, without a fault and a use.
pub fn plain_run()
    ensures { (rules_at : Span → Rules) (events : List ℕ → Option MacroNo) (run : List PpToken) (all : Expanded) → All (IsPlain rules_at) run → IsExpansion rules_at events run all → (all.tokens ≡ run) × (all.faults ≡ []) × (all.uses ≡ []) }
{}

/// There is a function that tells of each spelling whether it is one token, and of which kind.
pub fn some_teller()
    ensures { (one_token : List ℕ → Option Kind) × TellsTokens one_token }
{}

/// The defines of a config come to one list of macros.
pub fn one_start()
    ensures { (defines : List Define) (x y : List Macro) → Given defines x → Given defines y → x ≡ y }
{}

/// All defines come to a list of macros.
pub fn some_start()
    ensures { (defines : List Define) → (macros : List Macro) × Given defines macros }
{}
