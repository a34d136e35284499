//! What follows from the number of files that were opened in turn.
ghost use Rattle.std.specs.Prelude.{◌≡◌, ◌+◌, ◌↔◌, ℕ, List, Some, length, map, take, drop};
ghost use Rattle.outside.specs.Inputs.{Files};
ghost use Rattle.outside.specs.Turns.{all_in_turn};

/// Names are opened in turn, from the file at place n on, exactly if they are the names of the
/// files from there on. Then the number of files that were opened in turn has grown by the number
/// of names.
pub fn openings_in_turn()
    ensures exact { (files : Files) (n : ℕ) (names : List (List ℕ))
        → (all_in_turn (Some files) (Some n) names ≡ Some (n + length names))
        ↔ (names ≡ take (length names) (drop n (map (λ file. file.0) files))) }

    // If there is such a number afterwards, it is that one.
    ensures none { (files : Files) (n k : ℕ) (names : List (List ℕ))
        → all_in_turn (Some files) (Some n) names ≡ Some k → k ≡ n + length names }
{}
