//! The labels of the listed invariants.
//!
//! In memory the labels of all invariants at one partition lie together, and in the model those of one invariant at all
//! partitions. So they are read for many invariants at once, one partition after another. Then they are written down,
//! one invariant after another. Invariants of the same types often have the same labels: these are written once.
ghost use Rattle.std.specs.Prelude.{◌≡◌, ◌<◌, ◌≤◌, ◌+◌, ◌*◌, ◌/◌, ◌%◌, ◌^◌, ◌++◌, ℕ, List, Bool, [], IfOk, IfSome, None, OnOk, Some, length, map, slice_get, slice_index, slice_index_or};
ghost use Rattle.std.specs.Int.{bit_at};
ghost use Rattle.std.specs.List.{AllByRecursion};
ghost use Rattle.limits.specs.declared.TheConstants.{MAX_INVARIANTS, MAX_PARTITIONS};
ghost use Rattle.invariants.specs.Labels.{digit_of};
ghost use Rattle.invariants.specs.declared.records.Partition.{Partition};
ghost use Rattle.partition_model.specs.Assignments.{Assignment, G};
ghost use Rattle.partition_model.specs.Listings.{ArePartitions};
ghost use Rattle.models.specs.Models.{AreReached};
ghost use Rattle.partition_graph.specs.Links.{AreLinksOf};
ghost use Rattle.labelling.specs.Labelled.{digit, AreLabelsOf, AreStatesAt, SaysSwapped};
ghost use Rattle.infer_core.specs.declared.labels.TheConstants.{AHEAD, AT_ONCE, NEAR, TOGETHER};
ghost use Rattle.infer_core.specs.Portions.{AreNamed};
ghost use Rattle.infer_core.specs.Vacuous.{AreMetOnceOnWalks, Covers};
ghost use Rattle.infer_core.specs.Windows.{row_of, AreColumnsOf, AreReadAt, AreSame, AreTaken, HasRows, HaveNumber, HaveSize, IsAheadOf, IsWindowOf, SaysApart};

use crate::alike::asked_for;
use crate::flags::met_once_for;
use crate::portions::{PORTION, labelled, links_of};
use invariants::{Invariant, Kinds, Labels, Listed, Partition, Seq};
use labelling::GraphLabels;
use limits::MAX_PARTITIONS;
use partition_graph::{Links, PartGraph};
use std::alloc::{AllocError, Global};
use std::rc::Rc;

/// How many invariants have their labels read at once: a word of memory has a bit for each. The number of the first of
/// them is a multiple of this.
pub(crate) const TOGETHER: usize = 64;

/// Of how many of them the labels are written down at once: a byte has a bit for each.
const AT_ONCE: usize = 8;

/// At how many places the words of a row are read at once: they lie together in memory, and rows lie far apart.
const AHEAD: usize = 8;

/// How far apart two invariants may be whose labels are compared. The candidates of two types follow one another, and are
/// at most one more than this.
pub(crate) const NEAR: usize = 3;

/// The labels of some invariants, whose numbers follow one another, at each of some partitions.
#[derive(Drop)]
pub struct Window {
    /// The number of the first of these invariants.
    first: usize,
    /// How many they are.
    len: usize,
    /// The digits of their labels, one for each partition. Some invariants with the same labels share them.
    text: Rc<Vec<u8>>,
    /// The digits that were written last, and where in the text those of each invariant begin.
    digits: Digits,
    /// Scratch space: for each partition, the words of the states.
    words: Vec<[u64; 3]>,
    /// Scratch space: bytes of these words.
    bytes: Bytes,
    /// Scratch space: the digits of one invariant.
    row: Vec<u8>,
    /// Such words at this place and at others near it.
    ahead: Ahead,
}

/// For each of some partitions, the words of the states at the `AHEAD` places from `AHEAD * block` on. Past the last place
/// they are 0.
#[derive(Drop)]
struct Ahead {
    /// `None` if nothing is read yet.
    block: Option<usize>,
    words: Vec<[[u64; 3]; AHEAD]>,
}

/// The words of each state at each of some partitions. Those of one state lie together, so that one instruction reads
/// many.
#[derive(Drop)]
struct Columns {
    zeroth: Vec<u64>,
    first: Vec<u64>,
    second: Vec<u64>,
}

/// Which states `AT_ONCE` invariants have at each of some partitions: for each state a byte for each partition, with a
/// bit for each invariant.
#[derive(Drop)]
struct Bytes {
    /// The words that they are taken from.
    columns: Columns,
    /// Their number in the words; `None` if nothing is taken yet.
    number: Option<u32>,
    zeroth: Vec<u8>,
    first: Vec<u8>,
    second: Vec<u8>,
}

/// The byte with this number of the word, counted from the lowest.
fn byte_of(word: u64, number: u32) -> u8
    requires { number < 8 }
    ensures { result ≡ word / 2 ^ (8 * number) % 256 }
{
    ((word >> (8 * number)) % 256) as u8
}

/// The digit of the label that bit k of each of these bytes makes.
fn digit_from(zeroth: u8, first: u8, second: u8, k: u32) -> u8
    requires { k < AT_ONCE }
    ensures { result ≡ digit_of (bit_at zeroth k + 2 * bit_at first k + 4 * bit_at second k) }
{
    b'0' + (zeroth >> k) % 2 + 2 * ((first >> k) % 2) + 4 * ((second >> k) % 2)
}

/// Copies the words of one state at all partitions.
#[inline(always)]
fn copy_state(words: &[[u64; 3]], state: usize, column: &mut [u64])
    requires state { state < 3 }
    requires size { length column.old ≡ length words.now }
    ensures { (j : ℕ) → j < length words.now → slice_index column.new j
        ≡ slice_index (slice_index_or words.now j []) state }
{
    for j in 0..column.len() {
        column[j] = words[j][state];
    }
}

/// Takes the bytes with this number out of the words of one state at all partitions.
fn take_state(column: &[u64], number: u32, bytes: &mut [u8])
    requires number { number < 8 }
    requires size { length bytes.old ≡ length column.now }
    ensures { (j : ℕ) → j < length column.now
        → slice_index bytes.new j ≡ slice_index column.now j / 2 ^ (8 * number) % 256 }
{
    for j in 0..bytes.len() {
        bytes[j] = byte_of(column[j], number);
    }
}

impl Columns {
    /// Columns for this many partitions.
    fn make(alloc: Global, partitions: usize) -> Result<Columns, AllocError>
        ensures zeroth { IfOk result (λ made. length made.zeroth.items ≡ partitions) }
        ensures first { IfOk result (λ made. length made.first.items ≡ partitions) }
        ensures second { IfOk result (λ made. length made.second.items ≡ partitions) }
    {
        Ok(Columns {
            zeroth: vec![in alloc; 0; partitions]?,
            first: vec![in alloc; 0; partitions]?,
            second: vec![in alloc; 0; partitions]?,
        })
    }

    /// Copies the words of all states.
    fn copy(&mut self, words: &[[u64; 3]])
        requires zeroth { length (self.old).zeroth.items ≡ length words.now }
        requires first { length (self.old).first.items ≡ length words.now }
        requires second { length (self.old).second.items ≡ length words.now }
        ensures { AreColumnsOf words.now self.new }
    {
        copy_state(words, 0, self.zeroth.as_mut_slice());
        copy_state(words, 1, self.first.as_mut_slice());
        copy_state(words, 2, self.second.as_mut_slice());
    }
}

impl Bytes {
    /// Bytes for this many partitions.
    fn make(alloc: Global, partitions: usize) -> Result<Bytes, AllocError>
        ensures { IfOk result (λ made. HaveSize partitions made) }
    {
        Ok(Bytes {
            columns: Columns::make(alloc, partitions)?,
            number: None,
            zeroth: vec![in alloc; 0; partitions]?,
            first: vec![in alloc; 0; partitions]?,
            second: vec![in alloc; 0; partitions]?,
        })
    }

    /// Copies the words of all partitions. No bytes are taken out of them yet.
    fn begin(&mut self, words: &[[u64; 3]])
        requires { HaveSize (length words.now) self.old }
        ensures columns { AreColumnsOf words.now (self.new).columns }
        ensures taken { AreTaken self.new }
    {
        self.columns.copy(words);
        self.number = None;
    }

    /// Takes the bytes with this number out of the words of all partitions, unless they are taken already.
    fn take(&mut self, number: u32)
        requires number { number < 8 }
        requires taken { AreTaken self.old }
        ensures columns { (self.new).columns ≡ (self.old).columns }
        ensures taken { AreTaken self.new }
        ensures bytes { HaveNumber number self.new }
    {
        if self.number == Some(number) {
            return;
        }
        take_state(
            self.columns.zeroth.as_slice(),
            number,
            self.zeroth.as_mut_slice(),
        );
        take_state(
            self.columns.first.as_slice(),
            number,
            self.first.as_mut_slice(),
        );
        take_state(
            self.columns.second.as_slice(),
            number,
            self.second.as_mut_slice(),
        );
        self.number = Some(number);
    }

    /// Writes the digits of the labels of the invariant with this bit.
    fn write(&self, k: u32, row: &mut [u8])
        requires bit { k < AT_ONCE }
        requires zeroth { length self.now.zeroth.items ≡ length row.old }
        requires first { length self.now.first.items ≡ length row.old }
        requires second { length self.now.second.items ≡ length row.old }
        ensures { (j : ℕ) → j < length row.old → slice_index row.new j
            ≡ digit_of (bit_at (slice_index self.now.zeroth.items j) k
            + 2 * bit_at (slice_index self.now.first.items j) k
            + 4 * bit_at (slice_index self.now.second.items j) k) }
    {
        let zeroth = self.zeroth.as_slice();
        let first = self.first.as_slice();
        let second = self.second.as_slice();
        for j in 0..row.len() {
            row[j] = digit_from(zeroth[j], first[j], second[j], k);
        }
    }
}

/// A word in which a bit is off only if that bit of the given word is the same as the one that is `distance` places above it.
fn differs(word: u64, distance: u32) -> u64
    requires { distance < 64 }
    ensures { (k : ℕ) → bit_at result k ≡ 0 → bit_at word k ≡ bit_at word (distance + k) }
{
    word ^ (word >> distance)
}

/// A word in which a bit is off only if that bit of each of three words is the same as the one that is `distance`
/// places above it.
fn differs_in(words: &[u64; 3], distance: u32) -> u64
    requires { distance < 64 }
    ensures { (k : ℕ) → bit_at result k ≡ 0 → AreSame words.now k (distance + k) }
{
    let [zeroth, first, second] = *words;
    differs(zeroth, distance) | differs(first, distance) | differs(second, distance)
}

/// For each distance from 1 to `NEAR`, a word in which a bit is off only if the invariant with that bit has the same
/// labels as the one at this distance after it.
fn apart_of(words: &[[u64; 3]]) -> [u64; NEAR]
    ensures size { length result ≡ NEAR }
    ensures apart { SaysApart words.now result }
{
    let mut by_one = 0;
    let mut by_two = 0;
    let mut by_three = 0;
    for word in words {
        by_one = by_one | differs_in(word, 1);
        by_two = by_two | differs_in(word, 2);
        by_three = by_three | differs_in(word, 3);
    }
    [by_one, by_two, by_three]
}

/// An invariant before the one with bit k, and near it, that has the same labels. `apart` is what `apart_of` returns for
/// the words.
fn same_before(words: &[[u64; 3]], apart: &[u64], k: usize) -> Option<usize>
    requires size { length apart.now ≡ NEAR }
    requires apart { SaysApart words.now apart.now }
    requires bit { k < TOGETHER }
    ensures before { IfSome result (λ same. same < k) }
    ensures same { IfSome result (λ same. row_of words.now same ≡ row_of words.now k) }
{
    for near in 0..NEAR {
        if near < k && (apart[near] >> (k - near - 1) as u32) % 2 == 0 {
            return Some(k - near - 1);
        }
    }
    None
}

/// The digits of the labels of some invariants, one for each partition, and where in the text those of each invariant
/// begin.
#[derive(Drop)]
struct Digits {
    text: Vec<u8>,
    from: Vec<usize>,
}

impl Digits {
    /// No digits, with room for those of `TOGETHER` invariants at this many partitions.
    fn make(alloc: Global, partitions: usize) -> Result<Digits, AllocError> {
        // Room that is never written takes no memory.
        Ok(Digits {
            text: Vec::with_capacity(alloc, partitions.saturating_mul(TOGETHER))?,
            from: Vec::with_capacity(alloc, TOGETHER)?,
        })
    }

    /// Adds the digits of the next invariant, unless one near it has the same. Its bit is bit k of the bytes with this
    /// number. `apart` is what `apart_of` returns for the words. `bytes` and `row` are scratch space.
    fn add(
        &mut self,
        words: &[[u64; 3]],
        apart: &[u64],
        bytes: &mut Bytes,
        number: u32,
        k: u32,
        row: &mut [u8],
    ) -> Result<(), AllocError>
        requires number { number < 8 }
        requires bit { k < AT_ONCE }
        requires next { length (self.old).from.items ≡ AT_ONCE * number + k }
        requires size { length apart.now ≡ NEAR }
        requires apart { SaysApart words.now apart.now }
        requires columns { AreColumnsOf words.now bytes.old.columns }
        requires taken { AreTaken bytes.old }
        requires row { length row.old ≡ length words.now }
        requires rows { HasRows words.now (self.old).text.items (self.old).from.items }
        ensures rows { OnOk result (HasRows words.now (self.new).text.items (self.new).from.items) }
        ensures count { OnOk result (length (self.new).from.items
            ≡ length (self.old).from.items + 1) }
        ensures columns { AreColumnsOf words.now bytes.new.columns }
        ensures taken { AreTaken bytes.new }
    {
        if let Some(same) = same_before(words, apart, self.from.len()) {
            let start = self.from[same];
            self.from.push(start)?;
            return Ok(());
        }
        bytes.take(number);
        bytes.write(k, row);
        let start = self.text.len();
        self.text.extend_from_slice(row)?;
        self.from.push(start)?;
        Ok(())
    }

    /// Adds the digits of `AT_ONCE` invariants, whose bits are those of the bytes with this number. `bytes` and `row` are
    /// scratch space.
    fn add_all(
        &mut self,
        words: &[[u64; 3]],
        apart: &[u64],
        number: u32,
        bytes: &mut Bytes,
        row: &mut [u8],
    ) -> Result<(), AllocError>
        requires number { number < 8 }
        requires next { length (self.old).from.items ≡ AT_ONCE * number }
        requires size { length apart.now ≡ NEAR }
        requires apart { SaysApart words.now apart.now }
        requires columns { AreColumnsOf words.now bytes.old.columns }
        requires taken { AreTaken bytes.old }
        requires row { length row.old ≡ length words.now }
        requires rows { HasRows words.now (self.old).text.items (self.old).from.items }
        ensures rows { OnOk result (HasRows words.now (self.new).text.items (self.new).from.items) }
        ensures count { OnOk result (length (self.new).from.items ≡ AT_ONCE * (number + 1)) }
        ensures columns { AreColumnsOf words.now bytes.new.columns }
        ensures taken { AreTaken bytes.new }
    {
        for k in 0..AT_ONCE {
            self.add(words, apart, bytes, number, k as u32, row)?;
        }
        Ok(())
    }

    /// Finds the digits of the labels that the words say, of `TOGETHER` invariants, in place of those before.
    /// `bytes` and `row` are scratch space.
    fn find(
        &mut self,
        words: &[[u64; 3]],
        bytes: &mut Bytes,
        row: &mut [u8],
    ) -> Result<(), AllocError>
        requires bytes { HaveSize (length words.now) bytes.old }
        requires row { length row.old ≡ length words.now }
        ensures rows { OnOk result (HasRows words.now (self.new).text.items (self.new).from.items) }
        ensures count { OnOk result (length (self.new).from.items ≡ TOGETHER) }
        ensures bytes { HaveSize (length words.now) bytes.new }
    {
        self.text.clear();
        self.from.clear();
        bytes.begin(words);
        let apart = apart_of(words);
        for number in 0..TOGETHER / AT_ONCE {
            self.add_all(words, &apart, number as u32, bytes, row)?;
        }
        Ok(())
    }
}

/// What `GraphLabels::words` needs to know at each of the `AHEAD` places from `AHEAD * block` on, up to the last place.
fn swapped_at(graph_labels: &GraphLabels, block: usize, last: usize) -> [u64; AHEAD]
    requires last { last * TOGETHER < length (graph_labels.now).invs }
    requires block { block * AHEAD ≤ last }
    ensures size { length result ≡ AHEAD }
    ensures swapped { (b : ℕ) → b < AHEAD → block * AHEAD + b ≤ last
        → SaysSwapped (graph_labels.now).invs (block * AHEAD + b) (slice_index result b) }
{
    let mut swapped = [0; AHEAD];
    for b in 0..AHEAD {
        if b <= last - block * AHEAD {
            swapped[b] = graph_labels.swapped(block * AHEAD + b);
        }
    }
    swapped
}

/// The words at p at each of these places. `swapped` is what `swapped_at` returns for them.
fn words_at(
    graph_labels: &GraphLabels,
    block: usize,
    last: usize,
    swapped: &[u64],
    p: u32,
) -> [[u64; 3]; AHEAD]
    requires last { last * TOGETHER < length (graph_labels.now).invs }
    requires block { block * AHEAD ≤ last }
    requires size { length swapped.now ≡ AHEAD }
    requires swapped { (b : ℕ) → b < AHEAD → block * AHEAD + b ≤ last
        → SaysSwapped (graph_labels.now).invs (block * AHEAD + b) (slice_index swapped.now b) }
    requires id { p < MAX_PARTITIONS }
    ensures { (b : ℕ) → b < AHEAD → block * AHEAD + b ≤ last
        → AreStatesAt graph_labels.now (block * AHEAD + b) p (slice_index_or result b []) }
{
    let mut words = [[0; 3]; AHEAD];
    for b in 0..AHEAD {
        if b <= last - block * AHEAD {
            words[b] = graph_labels.words(block * AHEAD + b, p, swapped[b]);
        }
    }
    words
}

/// Reads, at each of the partitions, the words at each of these places.
fn gather(
    graph_labels: &GraphLabels,
    block: usize,
    last: usize,
    partitions: &[Partition],
    words: &mut [[[u64; 3]; AHEAD]],
)
    requires last { last * TOGETHER < length (graph_labels.now).invs }
    requires block { block * AHEAD ≤ last }
    requires ids { (k : ℕ) (x : Partition) → slice_get partitions.now k ≡ Some x
        → x.id < MAX_PARTITIONS }
    requires size { length words.old ≡ length partitions.now }
    ensures { AreReadAt graph_labels.now partitions.now last block words.new }
{
    let swapped = swapped_at(graph_labels, block, last);
    for (j, partition) in partitions.iter().enumerate() {
        words[j] = words_at(graph_labels, block, last, &swapped, partition.id);
    }
}

impl Ahead {
    /// Nothing is read yet, and there is room for this many partitions.
    fn make(alloc: Global, partitions: usize) -> Result<Ahead, AllocError>
        ensures none { IfOk result (λ made. made.block ≡ None) }
        ensures size { IfOk result (λ made. length made.words.items ≡ partitions) }
    {
        Ok(Ahead {
            block: None,
            words: vec![in alloc; [[0; 3]; AHEAD]; partitions]?,
        })
    }

    /// Reads the words of this block, unless they are read already. `last` is the last place.
    fn read(
        &mut self,
        graph_labels: &GraphLabels,
        block: usize,
        last: usize,
        partitions: &[Partition],
    )
        requires last { last * TOGETHER < length (graph_labels.now).invs }
        requires block { block * AHEAD ≤ last }
        requires ids { (k : ℕ) (x : Partition) → slice_get partitions.now k ≡ Some x
            → x.id < MAX_PARTITIONS }
        requires ahead { IsAheadOf graph_labels.now partitions.now last self.old }
        ensures ahead { IsAheadOf graph_labels.now partitions.now last self.new }
        ensures read { AreReadAt graph_labels.now partitions.now last block (self.new).words.items }
    {
        if self.block == Some(block) {
            return;
        }
        gather(
            graph_labels,
            block,
            last,
            partitions,
            self.words.as_mut_slice(),
        );
        self.block = Some(block);
    }

    /// Copies the words at one of the places.
    fn copy(&self, b: usize, words: &mut [[u64; 3]])
        requires place { b < AHEAD }
        requires size { length words.old ≡ length self.now.words.items }
        ensures { (j : ℕ) → j < length words.old → slice_index_or words.new j []
            ≡ slice_index_or (slice_index_or self.now.words.items j []) b [] }
    {
        let ahead = self.words.as_slice();
        for j in 0..words.len() {
            words[j] = ahead[j][b];
        }
    }
}

/// A copy of the digits, with no more room than they need.
fn copy_of(alloc: Global, digits: &[u8]) -> Result<Vec<u8>, AllocError>
    ensures { IfOk result (λ copy. copy.items ≡ digits.now) }
{
    let mut copy = Vec::with_capacity(alloc, digits.len())?;
    copy.extend_from_slice(digits)?;
    Ok(copy)
}

impl Window {
    /// The labels of no invariants, with scratch space for this many partitions.
    fn make(alloc: Global, partitions: usize) -> Result<Window, AllocError>
        ensures none { IfOk result (λ window. window.len ≡ 0) }
        ensures size { IfOk result (λ window. length window.words.items ≡ partitions) }
        ensures unread { IfOk result (λ window. window.ahead.block ≡ None) }
        ensures ahead { IfOk result (λ window. length window.ahead.words.items ≡ partitions) }
        ensures bytes { IfOk result (λ window. HaveSize partitions window.bytes) }
        ensures row { IfOk result (λ window. length window.row.items ≡ partitions) }
    {
        Ok(Window {
            first: 0,
            len: 0,
            text: Rc::new(alloc, Vec::new(alloc))?,
            digits: Digits::make(alloc, partitions)?,
            words: vec![in alloc; [0; 3]; partitions]?,
            bytes: Bytes::make(alloc, partitions)?,
            row: vec![in alloc; 0; partitions]?,
            ahead: Ahead::make(alloc, partitions)?,
        })
    }

    /// Reads the labels at these partitions of the invariants from number `TOGETHER * place` on, as many as there is room
    /// for. `AllocError` is returned if there is not enough memory; then the window is of no invariants.
    #[inline(never)]
    fn read(
        &mut self,
        alloc: Global,
        graph_labels: &GraphLabels,
        place: usize,
        count: usize,
        partitions: &[Partition],
    ) -> Result<(), AllocError>
        requires count { count ≡ length (graph_labels.now).invs }
        requires place { place * TOGETHER < count }
        requires ids { (k : ℕ) (x : Partition) → slice_get partitions.now k ≡ Some x
            → x.id < MAX_PARTITIONS }
        requires window { IsWindowOf graph_labels.now partitions.now self.old }
        ensures window { IsWindowOf graph_labels.now partitions.now self.new }
        ensures first { OnOk result ((self.new).first ≡ place * TOGETHER) }
        ensures full { OnOk result ((k : ℕ) → k < TOGETHER → place * TOGETHER + k < count
            → k < (self.new).len) }
    {
        let last = (count - 1) / TOGETHER;
        self.len = 0;
        self.ahead
            .read(graph_labels, place / AHEAD, last, partitions);
        self.ahead.copy(place % AHEAD, self.words.as_mut_slice());
        self.digits.find(
            self.words.as_slice(),
            &mut self.bytes,
            self.row.as_mut_slice(),
        )?;
        let text = copy_of(alloc, self.digits.text.as_slice())?;
        let first = place * TOGETHER;
        self.text = Rc::new(alloc, text)?;
        self.first = first;
        self.len = TOGETHER.min(count - first);
        Ok(())
    }

    /// The place in the window of the invariant with this number. If the invariant is not in the window, those that
    /// share a word with it are read first.
    fn place_of(
        &mut self,
        alloc: Global,
        graph_labels: &GraphLabels,
        number: usize,
        count: usize,
        partitions: &[Partition],
    ) -> Result<usize, AllocError>
        requires count { count ≡ length (graph_labels.now).invs }
        requires number { number < count }
        requires ids { (k : ℕ) (x : Partition) → slice_get partitions.now k ≡ Some x
            → x.id < MAX_PARTITIONS }
        requires window { IsWindowOf graph_labels.now partitions.now self.old }
        ensures window { IsWindowOf graph_labels.now partitions.now self.new }
        ensures within { IfOk result (λ place. place < (self.new).len) }
        ensures place { IfOk result (λ place. (self.new).first + place ≡ number) }
    {
        if self.first <= number && number - self.first < self.len {
            return Ok(number - self.first);
        }
        self.read(alloc, graph_labels, number / TOGETHER, count, partitions)?;
        Ok(number % TOGETHER)
    }
}

/// The labels of the invariant with this number at the partitions, in their order.
fn labels_of(
    alloc: Global,
    graph_labels: &GraphLabels,
    number: usize,
    count: usize,
    partitions: &[Partition],
    window: &mut Window,
) -> Result<Labels, AllocError>
    requires count { count ≡ length (graph_labels.now).invs }
    requires number { number < count }
    requires ids { (k : ℕ) (x : Partition) → slice_get partitions.now k ≡ Some x
        → x.id < MAX_PARTITIONS }
    requires window { IsWindowOf graph_labels.now partitions.now window.old }
    ensures labels { IfOk result
        (λ labels. labels ≡ map (λ x. digit graph_labels.now number x.id) partitions.now) }
    ensures window { IsWindowOf graph_labels.now partitions.now window.new }
{
    let place = window.place_of(alloc, graph_labels, number, count, partitions)?;
    Labels::part_of(&window.text, window.digits.from[place], partitions.len())
}

/// Adds these invariants to the list, each with its labels at these partitions. `graph_labels` has the labels of `count`
/// invariants, and `numbers` says for each of the others which of them has its labels. `AllocError` is returned if there is
/// not enough memory.
fn add_listed(
    alloc: Global,
    graph_labels: &GraphLabels,
    count: usize,
    invs: &[Invariant],
    numbers: &[usize],
    partitions: &[Partition],
    list: &mut Vec<Listed>,
) -> Result<(), AllocError>
    requires count { count ≡ length (graph_labels.now).invs }
    requires size { length numbers.now ≡ length invs.now }
    requires numbers { (k : ℕ) → k < length invs.now → slice_index_or numbers.now k 0 < count }
    requires ids { (k : ℕ) (x : Partition) → slice_get partitions.now k ≡ Some x
        → x.id < MAX_PARTITIONS }

    // What is listed, and what its labels say.
    ensures listing { OnOk result (map (λ l. l.inv) list.new.items
        ≡ map (λ l. l.inv) list.old.items ++ invs.now) }
    ensures labels { OnOk result ((h : Assignment) (once : List Bool) → ArePartitions partitions.now h
        → AreLabelsOf graph_labels.now (G h)
        → Covers once invs.now (graph_labels.now).invs numbers.now
        → AreMetOnceOnWalks (G h) once
        → AllByRecursion (λ l. AreReached l.inv h partitions.now l.labels) list.old.items
        → AllByRecursion (λ l. AreReached l.inv h partitions.now l.labels) list.new.items) }
{
    let mut window = Window::make(alloc, partitions.len())?;
    for (number, inv) in invs.iter().enumerate() {
        list.push(Listed {
            inv: *inv,
            labels: labels_of(
                alloc,
                graph_labels,
                numbers[number],
                count,
                partitions,
                &mut window,
            )?,
        })?;
    }
    Ok(())
}

/// Adds these invariants to the list, each with its labels in the graph at these partitions. `links` are the edges of the
/// graph, and `once` has flags of types that no walk has twice. `AllocError` is returned if there is not enough memory.
fn add_portion(
    alloc: Global,
    graph: &PartGraph,
    links: &Links,
    once: &[bool],
    invs: &[Invariant],
    partitions: &[Partition],
    list: &mut Vec<Listed>,
) -> Result<(), AllocError>
    requires few { length invs.now ≤ MAX_INVARIANTS }
    requires named { AreNamed invs.now }
    requires links { AreLinksOf links.now (G (graph.now).traces) }
    requires once { AreMetOnceOnWalks (G (graph.now).traces) once.now }
    requires ids { (k : ℕ) (x : Partition) → slice_get partitions.now k ≡ Some x
        → x.id < MAX_PARTITIONS }

    // What is listed, and what its labels say.
    ensures listing { OnOk result (map (λ l. l.inv) list.new.items
        ≡ map (λ l. l.inv) list.old.items ++ invs.now) }
    ensures labels { OnOk result ((h : Assignment) → ArePartitions partitions.now h
        → G h ≡ G (graph.now).traces
        → AllByRecursion (λ l. AreReached l.inv h partitions.now l.labels) list.old.items
        → AllByRecursion (λ l. AreReached l.inv h partitions.now l.labels) list.new.items) }
{
    let (asked, numbers) = asked_for(alloc, once, invs)?;
    let graph_labels = labelled(alloc, graph, links, asked.as_slice())?;
    let added = add_listed(
        alloc,
        &graph_labels,
        asked.len(),
        invs,
        numbers.as_slice(),
        partitions,
        list,
    );
    drop(graph_labels);
    added
}

/// The invariants, each with its labels in the graph at these partitions. `kinds` are those of the invariants: what is returned
/// does not depend on them. `AllocError` is returned if there is not enough memory.
pub fn listed(
    alloc: Global,
    kinds: Kinds,
    graph: &PartGraph,
    invs: &[Invariant],
    partitions: &[Partition],
) -> Result<Seq<Listed>, AllocError>
    requires few { length invs.now ≤ MAX_INVARIANTS }
    requires named { AreNamed invs.now }
    requires ids { (k : ℕ) (x : Partition) → slice_get partitions.now k ≡ Some x
        → x.id < MAX_PARTITIONS }

    // What is listed, and what its labels say.
    ensures listing { IfOk result (λ list. map (λ l. l.inv) list ≡ invs.now) }
    ensures labels { IfOk result (λ list. (h : Assignment) → ArePartitions partitions.now h
        → G h ≡ G (graph.now).traces
        → AllByRecursion (λ l. AreReached l.inv h partitions.now l.labels) list) }
{
    let links = links_of(alloc, graph)?;
    let once = met_once_for(alloc, kinds, graph, &links)?;
    let mut list = Vec::with_capacity(alloc, invs.len())?;
    for portion in 0..invs.len().div_ceil(PORTION) {
        let from = portion * PORTION;
        let to = invs.len().min(from + PORTION);
        add_portion(
            alloc,
            graph,
            &links,
            once.as_slice(),
            &invs[from..to],
            partitions,
            &mut list,
        )?;
    }
    Ok(Seq::from_vec(list))
}
