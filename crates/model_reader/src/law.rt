//! Laws about what bytes are read as.
ghost use Rattle.model_reader.specs.Laws.{AnswersAreOne, EmptyIsNotRead, UnshapedAreNotRead};

use model_file::read_is_well_shaped;

/// No bytes are read as a model that is not well shaped. For example, the text that would be written for a model with nothing in
/// its lists is not read as that model: it lacks the partitions of INITIAL and TERMINAL.
pub fn unshaped_models_are_not_read()
    ensures models { UnshapedAreNotRead }
    ensures empty { EmptyIsNotRead }
{
    read_is_well_shaped();
}

/// The clauses of `read_model` leave one answer to any bytes, except that memory may run out: the one model that they are read
/// as, or the one refusal.
pub fn answers_are_one()
    ensures { AnswersAreOne }
{}
