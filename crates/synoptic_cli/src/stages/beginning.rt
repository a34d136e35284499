//! The state before the first stage.
ghost use Rattle.std.specs.Prelude.{◌≡◌, ◌<◌, ◌^◌, IfOk};
ghost use Rattle.model_file.specs.declared.version.Version.{Version};
ghost use Rattle.model_shape.specs.Shapes.{end_of};
ghost use Rattle.synoptic_cli.specs.Stages.{at_start, no_model};
ghost use Rattle.synoptic_cli.specs.Halts.{IsHeld};

use crate::material::Material;
use crate::stages::SoFar;
use invariants::{Kinds, Model, Partition, Seq};
use limits::{INITIAL, TERMINAL};
use std::alloc::{AllocError, Global};
use trace_builder::Builder;
use traces::gathering_in_order_is_the_log;

/// The end with this number, for no traces.
fn end_of(number: u32) -> Partition
    requires { number < 2 ^ 16 }
    ensures { result ≡ end_of number 0 }
{
    Partition {
        id: number,
        typ: number as u16,
        count: 0,
    }
}

/// A model of no types and no traces.
fn no_model(alloc: Global) -> Result<Model, AllocError>
    ensures { IfOk result (λ model. model ≡ no_model) }
{
    let ends = [end_of(INITIAL), end_of(TERMINAL)].to_vec(alloc)?;
    Ok(Model {
        types: Seq::from_vec(Vec::new(alloc)),
        kinds: Kinds::Three,
        partitions: Seq::from_vec(ends),
        edges: Seq::from_vec(Vec::new(alloc)),
        invariants: Seq::from_vec(Vec::new(alloc)),
        splits: Seq::from_vec(Vec::new(alloc)),
        merges: Seq::from_vec(Vec::new(alloc)),
        blocks: Seq::from_vec(Vec::new(alloc)),
    })
}

/// The state before the first stage: no rules, a log without traces, and a model of no types.
pub fn start(alloc: Global) -> Result<SoFar, AllocError>
    ensures { IfOk result (λ so_far. (version : Version) → IsHeld version so_far at_start) }
{
    gathering_in_order_is_the_log();
    let log = Builder::new(alloc).finish()?;
    let model = no_model(alloc)?;
    Ok(SoFar {
        rules: None,
        material: Material { log, model },
    })
}
