//! Writing a model file, which is of version 2.
ghost use Rattle.std.specs.Prelude.{◌≡◌, ◌≤◌, [], ◌∷◌, ◌++◌, All, map, length, IfOk, Ok};
ghost use Rattle.json.specs.Token.{key};
ghost use Rattle.serde_json.specs.Data.{string};
ghost use Rattle.invariants.specs.Labels.{digit_of};
ghost use Rattle.model_file.specs.Tree.{kind_text, kind_data, kinds_data, number_data, array_of, path_data, tree_of, file_text};
ghost use Rattle.model_shape.specs.Shapes.{IsWellShaped};
ghost use Rattle.model_file.specs.Reading.{reads};
ghost use Rattle.model_file.specs.Writing.{tokens_of, first_members, last_members, Appends};

use crate::room::room_for;
use invariants::{
    Block, Edge, Ids, Kind, Kinds, Labels, Listed, Merge, Model, Partition, Seq, Split, Text,
};
use json::Writer;
use std::alloc::{AllocError, Global};
use std::str;

/// An entry that is written as a JSON value.
trait Written {
    ghost use Rattle.serde_json.specs.Data.{Data};

    /// The value of an entry.
    ghost written_as: { Self → Data };

    /// What writing an entry requires.
    ghost can_write: { Self → Type 0 };

    /// Writes the value.
    fn write(&self, alloc: Global, out: &mut Writer) -> Result<(), AllocError>
        requires { can_write self.now }
        ensures { Appends result out.old out.new (tokens_of (written_as self.now)) };
}

/// Writes an array.
fn write_list<T: Written>(alloc: Global, entries: &[T], out: &mut Writer) -> Result<(), AllocError>
    requires { All T.can_write entries.now }
    ensures { Appends result out.old out.new (tokens_of (array_of (map T.written_as entries.now))) }
{
    out.begin_array()?;
    'entries: for entry in entries {
        entry.write(alloc, out)?;
    }
    out.end_array()
}

#[tactic(auto, unfolding(crate::specs::Writing::tokens_of))]
fn write_number(number: u32, out: &mut Writer) -> Result<(), AllocError>
    ensures { Appends result out.old out.new (tokens_of (number_data number)) }
{
    out.u64(u64::from(number))
}

#[tactic(auto, unfolding(crate::specs::Writing::tokens_of))]
fn write_text(text: &str, out: &mut Writer) -> Result<(), AllocError>
    ensures { Appends result out.old out.new (tokens_of (string text.now)) }
{
    out.string(text)
}

impl Written for u32 {
    ghost use Rattle.model_file.specs.Tree.{number_data};

    ghost written_as = { number_data };

    ghost can_write = { λ _. Unit {0} };

    fn write(&self, _alloc: Global, out: &mut Writer) -> Result<(), AllocError> {
        write_number(*self, out)
    }
}

impl Written for Text {
    ghost use Rattle.serde_json.specs.Data.{string};

    ghost written_as = { string };

    ghost can_write = { λ _. Unit {0} };

    fn write(&self, _alloc: Global, out: &mut Writer) -> Result<(), AllocError> {
        write_text(self.as_str(), out)
    }
}

impl Written for Partition {
    ghost use Rattle.model_file.specs.Tree.{partition_data};

    ghost written_as = { partition_data };

    ghost can_write = { λ _. Unit {0} };

    fn write(&self, alloc: Global, out: &mut Writer) -> Result<(), AllocError> {
        write_list(alloc, &[self.id, u32::from(self.typ), self.count], out)
    }
}

impl Written for Edge {
    ghost use Rattle.model_file.specs.Tree.{edge_data};

    ghost written_as = { edge_data };

    ghost can_write = { λ _. Unit {0} };

    fn write(&self, alloc: Global, out: &mut Writer) -> Result<(), AllocError> {
        write_list(alloc, &[self.from, self.to, self.count], out)
    }
}

impl Written for Merge {
    ghost use Rattle.model_file.specs.Tree.{merge_data};

    ghost written_as = { merge_data };

    ghost can_write = { λ _. Unit {0} };

    fn write(&self, alloc: Global, out: &mut Writer) -> Result<(), AllocError> {
        write_list(alloc, &[self.p, self.q], out)
    }
}

fn kind_text(kind: Kind) -> &'static str
    ensures { result.now ≡ kind_text kind }
{
    match kind {
        Kind::AF => "AF",
        Kind::NF => "NF",
        Kind::AP => "AP",
        Kind::IB => "IB",
    }
}

impl Written for Kind {
    ghost use Rattle.model_file.specs.Tree.{kind_data};

    ghost written_as = { kind_data };

    ghost can_write = { λ _. Unit {0} };

    fn write(&self, _alloc: Global, out: &mut Writer) -> Result<(), AllocError> {
        write_text(kind_text(*self), out)
    }
}

/// Writes kinds as an array of their names.
fn write_kinds(alloc: Global, kinds: Kinds, out: &mut Writer) -> Result<(), AllocError>
    ensures { Appends result out.old out.new (tokens_of (kinds_data kinds)) }
{
    match kinds {
        Kinds::Three => write_list(alloc, &[Kind::AF, Kind::NF, Kind::AP], out),
        Kinds::Four => write_list(alloc, &[Kind::AF, Kind::NF, Kind::AP, Kind::IB], out),
    }
}

/// Writes labels as a string with a digit for each.
fn write_labels(labels: &Labels, out: &mut Writer) -> Result<(), AllocError>
    ensures { Appends result out.old out.new (tokens_of (string (map digit_of labels.now))) }
{
    let Ok(text) = str::from_utf8(labels.as_digits()) else {
        unreachable!()
    };
    write_text(text, out)
}

impl Written for Listed {
    ghost use Rattle.model_file.specs.Tree.{listed_data};

    ghost written_as = { listed_data };

    ghost can_write = { λ _. Unit {0} };

    fn write(&self, alloc: Global, out: &mut Writer) -> Result<(), AllocError> {
        out.begin_array()?;
        write_text(kind_text(self.inv.kind), out)?;
        write_number(u32::from(self.inv.a), out)?;
        write_number(u32::from(self.inv.b), out)?;
        write_labels(&self.labels, out)?;
        out.end_array()
    }
}

fn write_path(alloc: Global, path: &Ids, out: &mut Writer) -> Result<(), AllocError>
    ensures { Appends result out.old out.new (tokens_of (path_data path.now)) }
{
    write_list(alloc, path.as_slice(), out)
}

impl Written for Split {
    ghost use Rattle.model_file.specs.Tree.{split_data};

    ghost written_as = { split_data };

    ghost can_write = { λ _. Unit {0} };

    fn write(&self, alloc: Global, out: &mut Writer) -> Result<(), AllocError> {
        out.begin_array()?;
        write_number(self.inv, out)?;
        write_number(self.place, out)?;
        write_path(alloc, &self.path, out)?;
        out.end_array()
    }
}

impl Written for Block {
    ghost use Rattle.model_file.specs.Tree.{block_data};

    ghost written_as = { block_data };

    ghost can_write = { λ _. Unit {0} };

    fn write(&self, alloc: Global, out: &mut Writer) -> Result<(), AllocError> {
        out.begin_array()?;
        write_number(self.p, out)?;
        write_number(self.q, out)?;
        write_number(self.inv, out)?;
        write_path(alloc, &self.path, out)?;
        out.end_array()
    }
}

/// Writes a key with an array.
fn write_part<T: Written>(
    alloc: Global,
    name: &str,
    entries: &Seq<T>,
    out: &mut Writer,
) -> Result<(), AllocError>
    requires { All T.can_write entries.now }
    ensures { Appends result out.old out.new (key name.now
        ∷ tokens_of (array_of (map T.written_as entries.now))) }
{
    out.key(name)?;
    write_list(alloc, entries.as_slice(), out)
}

/// Writes the keys from `blocks` to `kinds` with their values.
fn write_first_members(alloc: Global, model: &Model, out: &mut Writer) -> Result<(), AllocError>
    ensures { Appends result out.old out.new (first_members model.now) }
{
    write_part(alloc, "blocks", &model.blocks, out)?;
    write_part(alloc, "edges", &model.edges, out)?;
    write_part(alloc, "invariants", &model.invariants, out)?;
    out.key("kinds")?;
    write_kinds(alloc, model.kinds, out)
}

/// Writes the keys from `merges` to `version` with their values.
fn write_last_members(alloc: Global, model: &Model, out: &mut Writer) -> Result<(), AllocError>
    ensures { Appends result out.old out.new (last_members model.now) }
{
    write_part(alloc, "merges", &model.merges, out)?;
    write_part(alloc, "partitions", &model.partitions, out)?;
    write_part(alloc, "splits", &model.splits, out)?;
    write_part(alloc, "types", &model.types, out)?;
    out.key("version")?;
    write_number(2, out)
}

/// Writes the object.
fn write_tree(alloc: Global, model: &Model, out: &mut Writer) -> Result<(), AllocError>
    ensures { Appends result out.old out.new (tokens_of (tree_of model.now)) }
{
    out.begin_object()?;
    write_first_members(alloc, model, out)?;
    write_last_members(alloc, model, out)?;
    out.end_object()
}

/// The text of a model in version 2: one JSON object without blanks, with the nine keys in the order of their bytes. The model
/// must be well shaped.
///
/// The text has at most 330,000,000 bytes (`limits::MAX_WRITTEN_BYTES`, law `texts_are_short`), and `read_model` reads this
/// model back from it. The only error is out of memory.
pub fn write_model(alloc: Global, model: &Model) -> Result<Seq<u8>, AllocError>
    requires { IsWellShaped model.now }
    ensures value { IfOk result (λ text. text ≡ file_text model.now) }
    ensures reads_back { IfOk result (λ text. reads text ≡ Ok model.now) }
{
    let text = Vec::with_capacity(alloc, room_for(model))?;
    let mut out = Writer::new(text);
    write_tree(alloc, model, &mut out)?;
    Ok(Seq::from_vec(out.into_inner()))
}
