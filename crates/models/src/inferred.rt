//! Laws of the model of a log, and of well-shaped models.
ghost use Rattle.models.specs.Laws.{OneModel, ModelsPass, ModelsTell, GraphIsListed, NumbersGiveLabels, ModelsAreShaped, ShapedAreFormed};

/// A log has at most one model.
pub fn one_model()
    ensures { OneModel }
{}

/// If the refinement of a log uses at most `MAX_PARTITIONS` ids, the model of the log is valid, and its history is justified.
pub fn models_pass()
    ensures { ModelsPass }
{}

/// However many ids it uses, the model of a log has all the properties that `valid_tells` lists.
pub fn models_tell()
    ensures { ModelsTell }
{}

/// A model has the graph of an assignment exactly if its lists are those of the partitions and edges of the assignment.
pub fn graph_is_listed()
    ensures { GraphIsListed }
{}

/// If numbers give, partition by partition, the states that are reached there, they are the labels of the invariant.
pub fn numbers_give_labels()
    ensures { NumbersGiveLabels }
{}

/// If a log and its model are within the limits, the model is well shaped.
pub fn models_are_shaped()
    ensures { ModelsAreShaped }
{}

/// The graph of a well-shaped model lists both ends with their own types, and its ids are below `MAX_PARTITIONS`. Its edges go
/// between listed ids, none into INITIAL and none out of TERMINAL.
pub fn shaped_are_formed()
    ensures { ShapedAreFormed }
{}
