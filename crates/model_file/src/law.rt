//! Laws of reading and writing, each a function with an empty body.
ghost use Rattle.model_file.specs.Rules.{RulesTell};
ghost use Rattle.model_file.specs.Laws.{TreesAreRead, WrittenReadsBack, ReadIsWellShaped, ReadIsTree, TextsAreShort, Version1IsReadAgain, Version1IsTree, Version1NamesNoKinds, Version1TreesAreRead};

/// If the JSON value of some bytes is that of a well-shaped model, they are read as that model.
pub fn trees_are_read()
    ensures { TreesAreRead }
{}

/// The text that is written for a well-shaped model is read back as that model.
pub fn written_reads_back()
    ensures { WrittenReadsBack }
{}

/// A model that is read is well shaped.
pub fn read_is_well_shaped()
    ensures { ReadIsWellShaped }
{}

/// Each test of the reader is passed exactly if the rule of a well-shaped model holds.
pub fn rules_tell()
    ensures { RulesTell }
{}

/// If a model is read, its bytes are an object that has exactly the keys of the model's value, each with the same value.
pub fn read_is_tree()
    ensures { ReadIsTree }
{}

/// The text of a well-shaped model is within the limit of what is written (`limits::MAX_WRITTEN_BYTES`). That limit is below
/// the one of a model file.
pub fn texts_are_short()
    ensures { TextsAreShort }
{}

/// A model that is read from a file of version 1 asks for three kinds, is well shaped, and is read back from its text of
/// version 2.
pub fn version_1_is_read_again()
    ensures { Version1IsReadAgain }
{}

/// If the JSON value of some bytes is that, in version 1, of a well-shaped model of that version, they are read by version 1 as
/// that model.
pub fn version_1_trees_are_read()
    ensures { Version1TreesAreRead }
{}

/// If a model is read from a file of version 1, its bytes are an object that has exactly the eight keys of the model's value in
/// that version, each with the same value.
pub fn version_1_is_tree()
    ensures { Version1IsTree }
{}

/// Version 1 refuses no file for its kinds: `Shape(Kinds)` is never returned there.
pub fn version_1_names_no_kinds()
    ensures { Version1NamesNoKinds }
{}
