//! What holds of every text.

ghost use Rattle.std.specs.Prelude.{◌≡◌, ◌&&◌, ℕ, Bool, List, [], ◌∷◌, ◌++◌};
ghost use Rattle.cl_base.specs.declared.config.Settings.{Settings};
ghost use Rattle.cl_pp.specs.declared.done.PpDone.{PpDone};
ghost use Rattle.cl_base.specs.declared.token.Token.{Token};
ghost use Rattle.cl_cond.specs.declared.mark.Mark.{Mark};
ghost use Rattle.cl_pp.specs.Activity.{Active, Passed, Question, says};
ghost use Rattle.cl_pp.specs.Branching.{Arm, IsSection, IsWhole, behind, laid, none_held};
ghost use Rattle.cl_base.specs.declared.headers.Known.{Known};
ghost use Rattle.cl_pp.specs.declared.done.PpAnswer.{PpAnswer};
ghost use Rattle.cl_pp.specs.Preprocessing.{Goes, Preprocesses, Reads, State, Through, World};
ghost use Rattle.cl_pp.specs.Standing.{first_unknown, wanted};

/// A text comes to one answer under the same settings, where the same is known of headers.
pub fn one_preprocessing()
    ensures { (config : Settings) (known : List ℕ → Known) (path text : List ℕ) (x y : PpAnswer) → Preprocesses config known path text x → Preprocesses config known path text y → x ≡ y }
{}

/// Every text comes to an answer.
pub fn some_preprocessing()
    ensures { (config : Settings) (known : List ℕ → Known) (path text : List ℕ) → (answer : PpAnswer) × Preprocesses config known path text answer }
{}

/// Going over lines and then others is going over both, whatever files they enter.
pub fn resumed()
    ensures splits { (w : World) (tokens : List Token) (lines more : List Mark) (s t : State) → Goes w tokens (lines ++ more) s t → Through w tokens lines more s t }
    ensures joins { (w : World) (tokens : List Token) (lines more : List Mark) (s t : State) → Through w tokens lines more s t → Goes w tokens (lines ++ more) s t }
{}

/// The header that was asked for last, if nothing is known of it, is the first such header.
pub fn first_needed()
    ensures { (w : World) (old new : PpDone) → old.deps ≡ [] → Reads w old new → first_unknown new.deps ≡ wanted new.deps }
{}

/// Of the branches of a section one is active at most: the first whose condition is fulfilled, where the section stands
/// in active lines (N1570 6.10.1p6). What is in no active branch is skipped.
pub fn one_branch()
    ensures { (past : List Passed) (arm : Arm) (arms : List Arm) → IsSection (arm ∷ arms) → says Active 0 (laid past (arm ∷ arms)) ≡ (arm.held && (none_held arms && says Active 0 past)) }
{}

/// Behind a group of the grammar (N1570 6.10), with all sections that it has, each answer is what it was before.
pub fn groups_change_nothing()
    ensures { (lines past : List Passed) (q : Question) (n : ℕ) → IsWhole lines → says q n (behind past lines) ≡ says q n past }
{}
