//! Laws of valid models.
ghost use Rattle.models.specs.Laws.{ValidSatisfies, ValidTells, FirstPartExists, FirstPartFails, OneFirstPart};

/// The word of each path of a valid model keeps each invariant that it lists.
pub fn valid_satisfies()
    ensures { ValidSatisfies }
{}

/// A valid model lists exactly the candidates of the kinds asked for that hold of every word, in their order. It has a path for
/// each word, and no path that breaks a listed invariant. For each pair of partitions of one type it has a block, whose path
/// breaks a listed invariant once the two are merged. So no merge of such a pair keeps all of them.
pub fn valid_tells()
    ensures { ValidTells }
{}

/// A model is valid for a log, or some part of it is the first that fails.
pub fn first_part_exists()
    ensures { FirstPartExists }
{}

/// If a part fails first, the model is not valid.
pub fn first_part_fails()
    ensures { FirstPartFails }
{}

/// At most one part fails first.
pub fn one_first_part()
    ensures { OneFirstPart }
{}
