//! What holds of every query.

ghost use Rattle.std.specs.Prelude.{◌≡◌, ◌⊎◌, ℕ, List};
ghost use Rattle.cl_base.specs.declared.answer.Answer.{Answer};
ghost use Rattle.cl_base.specs.declared.query.Query.{Query};
ghost use Rattle.cl_base.specs.declared.config.Settings.{Settings};
ghost use Rattle.cl_headers.specs.Headers.{Headers};
ghost use Rattle.cl_query.specs.AnswerOf.{AnswerOf, NeedsOf};

use cl_parse::{one_item_list, some_item_list};
use cl_pp::some_preprocessing;

/// A query about a text has one answer under the same settings and with the same headers.
pub fn one_answer()
    ensures { (kind : Query) (config : Settings) (headers : Headers) (path text : List ℕ) (x y : Answer) → AnswerOf kind config headers path text x → AnswerOf kind config headers path text y → x ≡ y }
{
    one_item_list();
}

/// A query about a text has an answer or needs a header, under any settings and with any headers.
pub fn some_answer()
    ensures { (kind : Query) (config : Settings) (headers : Headers) (path text : List ℕ) → ((answer : Answer) × AnswerOf kind config headers path text answer) ⊎ ((needed : List ℕ) × NeedsOf kind config headers path text needed) }
{
    some_preprocessing();
    some_item_list();
}

/// No query has an answer and needs a header.
pub fn answer_or_need()
    ensures { (kind : Query) (config : Settings) (headers : Headers) (path text needed : List ℕ) (answer : Answer) → AnswerOf kind config headers path text answer → NeedsOf kind config headers path text needed → ⊥ }
{
    one_item_list();
}
