//! What holds of every list of tokens.

ghost use Rattle.std.specs.Prelude.{◌≡◌, List};
ghost use Rattle.cl_base.specs.declared.token.PpToken.{PpToken};
ghost use Rattle.cl_parse.specs.declared.item.Item.{Item};
ghost use Rattle.cl_parse.specs.Items.{ItemsOf, Names};

use cl_expr::{one_tree, tree_or_none};

/// A list of tokens has one list of items, whatever names are typedef names before it.
pub fn one_item_list()
    ensures { (names : Names) (tokens : List PpToken) (xs ys : List Item) → ItemsOf names tokens xs → ItemsOf names tokens ys → xs ≡ ys }
{
    one_tree();
}

/// A list of tokens has a list of items, whatever names are typedef names before it.
pub fn some_item_list()
    ensures { (names : Names) (tokens : List PpToken) → (items : List Item) × ItemsOf names tokens items }
{
    tree_or_none();
}
