//! Laws of the definitions.
ghost use Rattle.std.specs.Prelude.{◌≡◌, ◌<◌, List, ℕ, get_or};
ghost use Rattle.line_rules.specs.Rules.{Rule, AreAlike, decision_of, fixed_name};

/// Rules that are alike decide each line in the same way, and give their events the same names.
pub fn alike_rules_decide_alike()
    ensures decision { (rs ss : List Rule) (line : List ℕ) → ((k : ℕ) → get_or line k 0 < 256)
        → AreAlike rs ss → decision_of rs line ≡ decision_of ss line }
    ensures name { (rs ss : List Rule) (number : ℕ)
        → AreAlike rs ss → fixed_name rs number ≡ fixed_name ss number }
{}
