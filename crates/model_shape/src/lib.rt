//! When a model is well shaped: seven rules, one for each of its lists, by definitions in `specs/`.
//!
//! The crates that write, read and check models and prove laws of them cite these definitions. The function here is a law: its
//! body is empty, and its contract is what is proved.
#![tactic(auto)]

ghost use Rattle.model_shape.specs.Ascending.{AscendingTells};

/// In an ascending list of a model, each entry is before all later ones, not only before the next.
pub fn ascending_tells()
    ensures { AscendingTells }
{}
