//! A law of the definitions, as the contract of a function that does nothing.
ghost use Rattle.load_maker.specs.Sessions.{SessionsStandInOrder};

/// The text has the sessions in order: the text of one more session follows that of the others, and
/// its draws go on where the last ended.
pub fn sessions_stand_in_order()
    ensures { SessionsStandInOrder }
{}
