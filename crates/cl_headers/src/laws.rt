//! Laws about the search for a header.

ghost use Rattle.std.specs.Prelude.{◌≡◌, ℕ, List};
ghost use Rattle.cl_base.specs.declared.headers.Known.{Known};
ghost use Rattle.cl_headers.specs.Resolving.{Resolves};
ghost use Rattle.cl_headers.specs.declared.resolving.Resolved.{Resolved};

/// A search comes to one answer, and asks for one list of paths.
pub fn one_resolution()
    ensures { (known : List ℕ → Known) (paths asked others : List (List ℕ)) (resolved other : Resolved) → Resolves known paths asked resolved → Resolves known paths others other → (asked ≡ others) × (resolved ≡ other) }
{}

/// And it comes to one always.
pub fn some_resolution()
    ensures { (known : List ℕ → Known) (paths : List (List ℕ)) → (asked : List (List ℕ)) × (resolved : Resolved) × Resolves known paths asked resolved }
{}
