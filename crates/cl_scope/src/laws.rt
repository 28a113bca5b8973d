//! What holds of all items.

ghost use Rattle.std.specs.Prelude.{◌≡◌, ◌+◌, ℕ, List, ◌++◌, true};
ghost use Rattle.cl_scope.specs.declared.made.Made.{Made as TheMade};
ghost use Rattle.cl_scope.specs.Steps.{Steps, World, run};
ghost use Rattle.cl_scope.specs.Items.{is_untouched, adds_all, nothing_made, join, StandsFor, OnlyAdds};
ghost use Rattle.cl_scope.specs.Known.{Known, known_after};
ghost use Rattle.cl_scope.specs.Sound.{IsSound};
ghost use Rattle.cl_scope.specs.declared.history.Local.{Local};
ghost use Rattle.cl_scope.specs.Trail.{seen};
ghost use Rattle.cl_scope.specs.Held.{Event, held, innermost, number_of, trail_after};

/// Items that go on over a base give the rest of what the items of the whole give, whatever base stands for the first.
pub fn resumes()
    ensures { (g h : TheMade) (front back : List Steps) → StandsFor h g (adds_all g nothing_made front)
        → adds_all g nothing_made (front ++ back) ≡ join (adds_all g nothing_made front) (adds_all h nothing_made back) }
{}

/// There is a base that stands for what was made: the whole so far.
pub fn stands()
    ensures { (g made : TheMade) → StandsFor (join g made) g made }
{}

/// What was made before stays as it was: steps only add.
pub fn only_adds()
    ensures { (item : Steps) (w : World) → OnlyAdds w.made (run item w).made }
{}

/// What a declaration is stays until it is settled anew, whatever is made; and each number that is taken raises the count by
/// one, so numbers rise.
pub fn keeps()
    ensures decl { (g : Known) (made : TheMade) (n : ℕ) → is_untouched made.settled n ≡ true → (known_after g made).decl n ≡ g.decl n }
    ensures count { (g : Known) (old more : TheMade) → (known_after g (join old more)).count ≡ (known_after g old).count + more.taken }
{}

/// A base of nothing is sound.
pub fn nothing_is_sound()
    ensures { IsSound nothing_made }
{}

/// What is seen of a name in blocks, prototypes and functions is its last declaration of the innermost scope, among all whose
/// scope holds the place (N1570 6.2.1p4).
pub fn visible_is_last()
    ensures { (before : List Event) (space : Local) (name : List ℕ) → seen (trail_after before) space name ≡ number_of (innermost (held before space name)) }
{}
