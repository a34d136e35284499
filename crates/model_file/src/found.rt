//! What a model file has under each of its keys.
ghost use Rattle.std.specs.Prelude.{◌≡◌, ◌<◌, length, OnOk, IfOk, IfErr, Some, None, not};
ghost use Rattle.json.specs.Json.{parse_map};
ghost use Rattle.json.specs.Lex.{tokens};
ghost use Rattle.serde_json.specs.Data.{Data, Members, no_members, put};
ghost use Rattle.serde_json.specs.Read.{read as read_text};
ghost use Rattle.model_file.specs.Reading.{IsNoValue, value_of};
ghost use Rattle.model_file.specs.Streams.{data_at, members_at, IsStopped};
ghost use Rattle.model_file.specs.Lists.{kept_in};
ghost use Rattle.model_file.specs.Found.{nothing, found_in, with_bounded, with_whole, with_field, HasMembers, IsRoot};

use crate::caps::{Blocks, Invariants, Splits, Types};
use crate::keys::{BoundedKey, Key, WholeKey, has_key, key_of};
use crate::lists::{Bound, Entry, list};
use crate::refusal::FileError;
use crate::stream::{Stop, pass_rest, pass_value};
use crate::version::Version;
use invariants::{Block, Edge, Kinds, Listed, Merge, Partition, Seq, Split, Text};
use json::{Reader, Scratch, Token};
use std::alloc::Global;

/// How deep arrays and objects may nest in a JSON text.
const MAX_DEPTH: usize = 127;

/// How deep they may nest in the value of a key.
const FIELD_DEPTH: usize = 126;

/// What a model file has under each key; `None` if the key is missing or its value does not have its form.
#[derive(Drop)]
pub(crate) struct Found {
    /// Whether there is a key that no file of the version has.
    pub(crate) has_extra: bool,
    pub(crate) version: Option<u64>,
    pub(crate) types: Option<Seq<Text>>,
    pub(crate) kinds: Option<Kinds>,
    pub(crate) partitions: Option<Seq<Partition>>,
    pub(crate) edges: Option<Seq<Edge>>,
    pub(crate) invariants: Option<Seq<Listed>>,
    pub(crate) merges: Option<Seq<Merge>>,
    pub(crate) splits: Option<Seq<Split>>,
    pub(crate) blocks: Option<Seq<Block>>,
}

impl Found {
    /// No key.
    pub(crate) fn nothing() -> Found
        ensures { result ≡ nothing }
    {
        Found {
            has_extra: false,
            version: None,
            types: None,
            kinds: None,
            partitions: None,
            edges: None,
            invariants: None,
            merges: None,
            splits: None,
            blocks: None,
        }
    }
}

/// Reads the next value into `place`. An earlier value is dropped first.
fn read_into<E: Entry + Drop>(
    alloc: Global,
    reader: &mut Reader<'_>,
    place: &mut Option<E>,
) -> Result<(), Stop>
    ensures ok { OnOk result (parse_map E.read_as (data_at FIELD_DEPTH reader.old)
        ≡ Some (place.new, reader.new)) }
    ensures err { IfErr result (λ e. IsStopped e (data_at FIELD_DEPTH reader.old)) }
    ensures shorter { OnOk result (length reader.new < length reader.old) }
{
    *place = None;
    match E::read(alloc, reader, FIELD_DEPTH) {
        Ok(entry) => {
            *place = entry;
            Ok(())
        }
        Err(e) => Err(e),
    }
}

/// Reads the next value as a list into `entries`, up to where it is over. An earlier value is dropped first.
fn read_list<T: Entry + Drop, B: Bound<T>>(
    alloc: Global,
    reader: &mut Reader<'_>,
    entries: &mut Option<Seq<T>>,
) -> Result<(), Stop>
    ensures ok { OnOk result
        (parse_map (kept_in B.over T.read_as) (data_at FIELD_DEPTH reader.old)
        ≡ Some (entries.new, reader.new)) }
    ensures err { IfErr result (λ e. IsStopped e (data_at FIELD_DEPTH reader.old)) }
    ensures shorter { OnOk result (length reader.new < length reader.old) }
{
    *entries = None;
    match list::<T, B>(alloc, reader, FIELD_DEPTH) {
        Ok(read) => {
            *entries = read;
            Ok(())
        }
        Err(e) => Err(e),
    }
}

/// Reads the value of the key of a bounded list.
fn read_bounded(
    alloc: Global,
    reader: &mut Reader<'_>,
    key: BoundedKey,
    found: &mut Found,
) -> Result<(), Stop>
    ensures ok { OnOk result ((d : Data) × (data_at FIELD_DEPTH reader.old ≡ Some (d, reader.new))
        × (found.new ≡ with_bounded key d found.old)) }
    ensures err { IfErr result (λ e. IsStopped e (data_at FIELD_DEPTH reader.old)) }
    ensures shorter { OnOk result (length reader.new < length reader.old) }
{
    match key {
        BoundedKey::Blocks => read_list::<Block, Blocks>(alloc, reader, &mut found.blocks),
        BoundedKey::Invariants => {
            read_list::<Listed, Invariants>(alloc, reader, &mut found.invariants)
        }
        BoundedKey::Splits => read_list::<Split, Splits>(alloc, reader, &mut found.splits),
        BoundedKey::Types => read_list::<Text, Types>(alloc, reader, &mut found.types),
    }
}

/// Reads the value of the key of a list that is kept whole.
fn read_whole_list(
    alloc: Global,
    reader: &mut Reader<'_>,
    key: WholeKey,
    found: &mut Found,
) -> Result<(), Stop>
    ensures ok { OnOk result ((d : Data) × (data_at FIELD_DEPTH reader.old ≡ Some (d, reader.new))
        × (found.new ≡ with_whole key d found.old)) }
    ensures err { IfErr result (λ e. IsStopped e (data_at FIELD_DEPTH reader.old)) }
    ensures shorter { OnOk result (length reader.new < length reader.old) }
{
    match key {
        WholeKey::Edges => read_into(alloc, reader, &mut found.edges),
        WholeKey::Merges => read_into(alloc, reader, &mut found.merges),
        WholeKey::Partitions => read_into(alloc, reader, &mut found.partitions),
    }
}

/// Skips the value of a key that files do not have.
fn pass_other(reader: &mut Reader<'_>) -> Result<(), Stop>
    ensures ok { OnOk result ((d : Data) × (data_at FIELD_DEPTH reader.old ≡ Some (d, reader.new))) }
    ensures err { IfErr result (λ e. IsStopped e (data_at FIELD_DEPTH reader.old)) }
    ensures shorter { OnOk result (length reader.new < length reader.old) }
{
    match pass_value(reader, FIELD_DEPTH) {
        Ok(()) => Ok(()),
        Err(_) => Err(Stop::NotJson),
    }
}

/// Reads the value of a key.
fn read_field(
    alloc: Global,
    reader: &mut Reader<'_>,
    key: Key,
    found: &mut Found,
) -> Result<(), Stop>
    ensures ok { OnOk result ((d : Data) × (data_at FIELD_DEPTH reader.old ≡ Some (d, reader.new))
        × (found.new ≡ with_field key d found.old)) }
    ensures err { IfErr result (λ e. IsStopped e (data_at FIELD_DEPTH reader.old)) }
    ensures shorter { OnOk result (length reader.new < length reader.old) }
{
    match key {
        Key::Bounded(key) => read_bounded(alloc, reader, key, found),
        Key::Whole(key) => read_whole_list(alloc, reader, key, found),
        Key::Kinds => read_into(alloc, reader, &mut found.kinds),
        Key::Version => read_into(alloc, reader, &mut found.version),
        Key::Other => pass_other(reader),
    }
}

/// Reads the value of a key and notes whether files of the version have the key.
fn read_member(
    version: Version,
    alloc: Global,
    reader: &mut Reader<'_>,
    key: &str,
    found: &mut Found,
) -> Result<(), Stop>
    ensures ok { OnOk result ((d : Data) × (data_at FIELD_DEPTH reader.old ≡ Some (d, reader.new))
        × ((ms : Members) → found.old ≡ found_in version ms
        → found.new ≡ found_in version (put key.now d ms))) }
    ensures err { IfErr result (λ e. IsStopped e (data_at FIELD_DEPTH reader.old)) }
    ensures shorter { OnOk result (length reader.new < length reader.old) }
{
    let key = key_of(key);
    found.has_extra = found.has_extra | !has_key(version, key);
    read_field(alloc, reader, key, found)
}

/// Reads the members up to the brace that closes the object.
fn read_members(
    version: Version,
    alloc: Global,
    reader: &mut Reader<'_>,
    found: &mut Found,
) -> Result<(), Stop>
    requires { found.old ≡ nothing }
    ensures ok { OnOk result ((ms : Members)
        × (members_at no_members FIELD_DEPTH reader.old ≡ Some (ms, reader.new))
        × (found.new ≡ found_in version ms)) }
    ensures err { IfErr result (λ e. IsStopped e (members_at no_members FIELD_DEPTH reader.old)) }
{
    'members: while let Some(key) = reader.next_key()? {
        match read_member(version, alloc, reader, key, found) {
            Ok(()) => {}
            Err(e) => return Err(e),
        }
    }
    Ok(())
}

/// Reads a text, and returns whether it is an object.
fn read_root(
    version: Version,
    alloc: Global,
    reader: &mut Reader<'_>,
    found: &mut Found,
) -> Result<bool, Stop>
    requires { found.old ≡ nothing }
    ensures ok { IfOk result (λ is_object. (d : Data) × (data_at MAX_DEPTH reader.old ≡ Some (d, reader.new))
        × IsRoot version d is_object found.new) }
    ensures err { IfErr result (λ e. IsStopped e (data_at MAX_DEPTH reader.old)) }
{
    let Some(token) = reader.next() else {
        return Err(Stop::NotJson);
    };
    if let Token::BeginObject = token {
        return match read_members(version, alloc, reader, found) {
            Ok(()) => Ok(true),
            Err(e) => Err(e),
        };
    }
    match pass_rest(reader, token, MAX_DEPTH) {
        Ok(()) => Ok(false),
        Err(_) => Err(Stop::NotJson),
    }
}

fn read_whole(
    version: Version,
    alloc: Global,
    text: &str,
    scratch: &mut Scratch,
    found: &mut Found,
) -> Result<bool, Stop>
    requires { found.old ≡ nothing }
    ensures ok { IfOk result (λ is_object. (d : Data) × (read_text text.now ≡ Some d)
        × IsRoot version d is_object found.new) }
    ensures err { IfErr result (λ e. IsStopped e (read_text text.now)) }
{
    let Ok(mut reader) = Reader::new(text, scratch) else {
        return Err(Stop::Memory);
    };
    let is_object = match read_root(version, alloc, &mut reader, found) {
        Ok(is_object) => is_object,
        Err(e) => return Err(e),
    };
    if reader.next().is_some() {
        return Err(Stop::NotJson);
    }
    Ok(is_object)
}

/// Reads what the bytes have under each key, and returns whether they are an object.
pub(crate) fn read_found(
    version: Version,
    alloc: Global,
    bytes: &[u8],
    found: &mut Found,
) -> Result<bool, FileError>
    requires { found.old ≡ nothing }
    ensures ok { IfOk result (λ is_object. (d : Data) × (value_of bytes.now ≡ Some d)
        × IsRoot version d is_object found.new) }
    ensures err { IfErr result (λ e. IsNoValue e (value_of bytes.now)) }
{
    let Ok(text) = simdutf8::basic::from_utf8(bytes) else {
        return Err(FileError::NotJson);
    };
    let mut scratch = Scratch::new(alloc);
    match read_whole(version, alloc, text, &mut scratch, found) {
        Ok(is_object) => Ok(is_object),
        Err(Stop::NotJson) => Err(FileError::NotJson),
        Err(Stop::Memory) => Err(FileError::Memory),
    }
}
