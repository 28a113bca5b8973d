//! What holds of every file, and of every condition.

ghost use Rattle.std.specs.Prelude.{◌≡◌, List};
ghost use Rattle.cl_base.specs.declared.token.PpToken.{PpToken};
ghost use Rattle.cl_base.specs.declared.token.Token.{Token};
ghost use Rattle.cl_cond.specs.declared.eval.IfValue.{IfValue};
ghost use Rattle.cl_cond.specs.declared.mark.Groups.{Groups};
ghost use Rattle.cl_cond.specs.Sections.{GroupsOf};
ghost use Rattle.cl_cond.specs.Grouping.{IsGroup};
ghost use Rattle.cl_cond.specs.Words.{words_from};
ghost use Rattle.cl_cond.specs.Conditions.{EvaluatesTo};

/// The tokens of a file have one structure.
pub fn one_grouping()
    ensures { (tokens : List Token) (x y : Groups) → GroupsOf tokens x → GroupsOf tokens y → x ≡ y }
{}

/// The tokens of every file have a structure.
pub fn some_grouping()
    ensures { (tokens : List Token) → (groups : Groups) × GroupsOf tokens groups }
{}

/// The marks are a group of the grammar (N1570 6.10), once the ends are added that are missing: one for each fault 14.
pub fn marks_are_a_group()
    ensures { (tokens : List Token) (groups : Groups) → GroupsOf tokens groups → IsGroup groups }
{}

/// The tokens of a condition come to one value or have one place at fault.
pub fn one_value()
    ensures { (tokens : List PpToken) (x y : IfValue) → EvaluatesTo (words_from 0 tokens) x → EvaluatesTo (words_from 0 tokens) y → x ≡ y }
{}

/// The tokens of every condition come to a value or have a place at fault.
pub fn some_value()
    ensures { (tokens : List PpToken) → (value : IfValue) × EvaluatesTo (words_from 0 tokens) value }
{}
