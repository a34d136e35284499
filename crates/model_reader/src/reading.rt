//! Reading a model file.
ghost use Rattle.std.specs.Prelude.{◌≡◌, All, IsUtf8, IfOk, IfErr, IfSome, Ok};
ghost use Rattle.model_shape.specs.Shapes.{IsWellShaped};
ghost use Rattle.model_file.specs.Reading.{Fails, reads};
ghost use Rattle.model_file.specs.Tree.{file_text};

use crate::members::take_members;
use crate::rest::Rest;
use invariants::{Kinds, Model, Seq, Text};
use model_file::{FileError, is_well_shaped, written_reads_back};
use std::alloc::Global;
use std::rc::Rc;

/// A model with nothing in its lists.
fn empty(alloc: Global) -> Model {
    Model {
        types: Seq::from_vec(Vec::new(alloc)),
        kinds: Kinds::Three,
        partitions: Seq::from_vec(Vec::new(alloc)),
        edges: Seq::from_vec(Vec::new(alloc)),
        invariants: Seq::from_vec(Vec::new(alloc)),
        splits: Seq::from_vec(Vec::new(alloc)),
        merges: Seq::from_vec(Vec::new(alloc)),
        blocks: Seq::from_vec(Vec::new(alloc)),
    }
}

/// Each text is UTF-8. The call only passes this on to contracts.
fn texts_are_utf8(texts: &[Text])
    ensures { All IsUtf8 texts.now }
{
    'texts: for text in texts {
        let _ = text.as_str();
    }
}

/// The model with this text, if it is spelled as `write_model` spells it. Its labels share the text.
///
/// It is also `None` if memory runs out.
fn written_model(alloc: Global, text: &Rc<Vec<u8>>) -> Option<Model>
    ensures text { IfSome result (λ model. (text.now).value.items ≡ file_text model) }
    ensures utf8 { IfSome result (λ model. All IsUtf8 model.types) }
{
    let mut rest = Rest::new(alloc, text)?;
    let mut model = empty(alloc);
    take_members(alloc, &mut rest, &mut model)?;
    if !rest.is_empty() {
        return None;
    }
    texts_are_utf8(model.types.as_slice());
    Some(model)
}

/// The model that `written_model` gives, if it is well shaped.
fn shaped_model(alloc: Global, text: &Rc<Vec<u8>>) -> Option<Model>
    ensures read { IfSome result (λ model. reads (text.now).value.items ≡ Ok model) }
    ensures shape { IfSome result IsWellShaped }
{
    let model = written_model(alloc, text)?;
    written_reads_back();
    match is_well_shaped(alloc, &model) {
        Ok(true) => Some(model),
        _ => None,
    }
}

/// The model in the bytes of a file of version 2, or the first refusal, as `model_file::read_model` gives it. The refusals, in
/// their order:
///
/// - `TooLong`: there are more than 536,870,912 bytes (`limits::MAX_MODEL_BYTES`).
/// - `NotJson`: the bytes are not a JSON text.
/// - `Shape(Root)`: the JSON value is not an object.
/// - `Shape(Version)`: there is no version number. `Version`: it is not 2.
/// - `Shape(Extra)`: there is a key that no file of version 2 has.
/// - `Shape` of the first part, in the order of `Field`, that is missing, does not have its form or breaks its rule.
///
/// `Memory` may be returned instead of any answer.
///
/// Bytes that are spelled as `write_model` spells a model are read in one pass, and the labels of the model share them. All
/// others are read again by `model_file::read_model`, which takes longer and gives the same model or a refusal.
pub fn read_model(alloc: Global, bytes: Vec<u8>) -> Result<Model, FileError>
    ensures ok { IfOk result (λ model. reads bytes.items ≡ Ok model) }
    ensures shape { IfOk result IsWellShaped }
    ensures err { IfErr result (λ e. Fails e (reads bytes.items)) }
{
    let Ok(text) = Rc::new(alloc, bytes) else {
        return Err(FileError::Memory);
    };
    match shaped_model(alloc, &text) {
        Some(model) => Ok(model),
        None => model_file::read_model(alloc, text.as_slice()),
    }
}
