//! What holds of every text.

ghost use Rattle.std.specs.Prelude.{◌≡◌, ℕ, List};
ghost use Rattle.cl_base.specs.declared.token.Lexed.{Lexed};
ghost use Rattle.cl_lex.specs.Lexing.{HasLexing, Lexes};

/// A text has one list of tokens and one list of faults.
pub fn one_lexing()
    ensures { (text : List ℕ) (x y : Lexed) → Lexes text x → Lexes text y → x ≡ y }
{}

/// Every text has one.
pub fn some_lexing()
    ensures { (text : List ℕ) → HasLexing text }
{}
