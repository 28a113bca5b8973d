ghost use Rattle.std.specs.Prelude.{◌≡◌, ℕ, ◌<◌, ◌^◌, List, Bool};
ghost use Rattle.cl_frames.specs.Sessions.{Ending, SplitsInto};

/// The bytes of a session are frames in one way. Where `at` bytes, fewer than 2^40, stand before the bytes, and some
/// bodies are the last, after which nothing is read, there are bodies and an ending that the bytes split into (`some`),
/// and no others (`one`).
pub fn session_splits_once()
    ensures one { (is_last : List ℕ → Bool) (at : ℕ) (bytes : List ℕ) → at < 2 ^ 40 → (xs ys : List (List ℕ)) (d e : Ending)
        → SplitsInto is_last at bytes xs d → SplitsInto is_last at bytes ys e → (xs ≡ ys) × (d ≡ e) }
    ensures some { (is_last : List ℕ → Bool) (at : ℕ) (bytes : List ℕ) → at < 2 ^ 40
        → (bodies : List (List ℕ)) × (e : Ending) × SplitsInto is_last at bytes bodies e }
{}
