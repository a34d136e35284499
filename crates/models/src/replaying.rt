//! Laws of histories.
ghost use Rattle.models.specs.Laws.{FirstStepExists, FirstStepFails, OneFirstStep};

/// The history of a model is justified, or some step of it is the first that fails.
pub fn first_step_exists()
    ensures { FirstStepExists }
{}

/// If a step fails first, the history is not justified.
pub fn first_step_fails()
    ensures { FirstStepFails }
{}

/// At most one step fails first.
pub fn one_first_step()
    ensures { OneFirstStep }
{}
