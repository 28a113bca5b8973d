//! What holds of every path.

ghost use Rattle.std.specs.Prelude.{◌≡◌, ℕ, ◌<◌, List, All, Some, true};
ghost use Rattle.cl_paths.specs.Parts.{is_rooted, normal_parts, normal_form};
ghost use Rattle.cl_paths.specs.Places.{IsNormal, SamePlace};
ghost use Rattle.cl_paths.specs.Uris.{is_path_text, path_in, uri_of};

/// A normal form has no empty part and no `.`, and `..` only before its names, where it doesn't begin at the root. A path
/// and its normal form name one place, two names of one place have one normal form, and so the normal form of a
/// normal form is itself.
pub fn one_normal_form()
    ensures shape { (path : List ℕ) → IsNormal (is_rooted path) (normal_parts path) }
    ensures there { (path : List ℕ) → SamePlace path (normal_form path) }
    ensures one { (p q : List ℕ) → SamePlace p q → normal_form p ≡ normal_form q }
    ensures again { (path : List ℕ) → normal_form (normal_form path) ≡ normal_form path }
{}

/// A normal path that begins with `/` is read back from its URI: the bytes of a text in UTF-8 with no zero byte.
pub fn path_read_back()
    ensures { (path : List ℕ) → All (λ b. b < 256) path → is_path_text path ≡ true → is_rooted path ≡ true → normal_form path ≡ path → path_in (uri_of path) ≡ Some path }
{}
