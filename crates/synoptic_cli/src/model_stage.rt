//! Reads the model file.
ghost use Rattle.std.specs.Prelude.{◌≡◌, [], ◌∷◌, Ok, Err, IfOk, IfErr};
ghost use Rattle.outside.specs.Inputs.{Stays};
ghost use Rattle.outside.specs.Reading.{InputGives};
ghost use Rattle.outside.specs.Turns.{OpensFirst};
ghost use Rattle.model_file.specs.Reading.{Fails, reads_as};
ghost use Rattle.model_file.specs.Versions.{max_bytes};
ghost use Rattle.synoptic_cli.specs.Halts.{FitsVersion, ModelHalts, ReadsModel, halt_of, halt_status};

use crate::status::{Source, Status};
use invariants::Model;
use model_file::{FileError, Version, read_version_1};
use model_reader::read_model;
use outside::{InputError, Inputs, read_input};
use std::alloc::Global;

/// Why the model file gives no model.
#[derive(Clone, Copy)]
pub enum ModelHalt {
    /// There is no file with this name.
    Missing,
    /// It could not be opened or read.
    Fault,
    /// It is refused.
    Refused(FileError),
    /// Out of memory.
    Memory,
}

/// The halt for a refusal of the file. Out of memory is not a refusal of the file.
fn halt_of(error: FileError) -> ModelHalt
    ensures { result ≡ halt_of error }
{
    match error {
        FileError::Memory => ModelHalt::Memory,
        _ => ModelHalt::Refused(error),
    }
}

/// The model in the bytes of a file of this version.
fn read_of(alloc: Global, version: Version, bytes: Vec<u8>) -> Result<Model, FileError>
    ensures ok { IfOk result (λ model. reads_as version bytes.items ≡ Ok model) }
    ensures shaped { IfOk result (FitsVersion version) }
    ensures err { IfErr result (λ e. Fails e (reads_as version bytes.items)) }
{
    match version {
        Version::One => read_version_1(alloc, bytes.as_slice()),
        Version::Two => read_model(alloc, bytes),
    }
}

/// Reads the named file, to its end or to one byte beyond the limit of this version.
fn read_bytes<I: Inputs>(
    alloc: Global,
    version: Version,
    name: &str,
    inputs: &mut I,
) -> Result<Vec<u8>, InputError>
    ensures stays { Stays (I.state inputs.old) (I.state inputs.new) }
    ensures gives { InputGives (I.state inputs.old) name.now (max_bytes version) result
        (I.state inputs.new) }
    ensures turn { OpensFirst (name.now ∷ []) (I.state inputs.old) (I.state inputs.new) }
{
    read_input(alloc, inputs, name, version.max_bytes())
}

/// Reads the model in the named file of this version. The file is read to its end or to one byte beyond the limit of the
/// version.
pub fn read_model_file<I: Inputs>(
    alloc: Global,
    version: Version,
    name: &str,
    inputs: &mut I,
) -> Result<Model, ModelHalt>
    ensures stays { Stays (I.state inputs.old) (I.state inputs.new) }
    ensures ok { IfOk result (ReadsModel version (I.state inputs.old) (I.state inputs.new) name.now) }
    ensures memory { result ≡ Err ModelHalt.Memory
        → (I.state inputs.new).faults ≡ (I.state inputs.old).faults }
    ensures err { IfErr result (ModelHalts version (I.state inputs.old) (I.state inputs.new) name.now) }
    ensures turn { OpensFirst (name.now ∷ []) (I.state inputs.old) (I.state inputs.new) }
{
    let bytes = match read_bytes(alloc, version, name, inputs) {
        Ok(bytes) => bytes,
        Err(InputError::Missing) => return Err(ModelHalt::Missing),
        Err(InputError::Fault) => return Err(ModelHalt::Fault),
        Err(InputError::Memory) => return Err(ModelHalt::Memory),
    };
    match read_of(alloc, version, bytes) {
        Ok(model) => Ok(model),
        Err(error) => Err(halt_of(error)),
    }
}

/// The status for a halt.
pub fn halt_status(halt: ModelHalt) -> Status
    ensures { result ≡ halt_status halt }
{
    match halt {
        ModelHalt::Missing => Status::ReadFault(Source::ModelFile),
        ModelHalt::Fault => Status::ReadFault(Source::ModelFile),
        ModelHalt::Refused(error) => Status::ModelFile(error),
        ModelHalt::Memory => Status::Memory,
    }
}
