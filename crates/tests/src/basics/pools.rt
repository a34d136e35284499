//! Stores that allocate their memory once, the log of a run, and a counter. The calls are fixed, so that what each requires of
//! the store before it can be seen in the code.
ghost use Rattle.std.specs.Prelude.{◌≡◌, ◌+◌, ◌<◌, [], length};
ghost use Rattle.cell_pool.specs.Tables.{HasCells};
ghost use Rattle.run_history.specs.Records.{HoldsPaths};

use crate::tools::both;
use cell_pool::{Cells, CellsRoom, RunLog, Span, Spans};
use invariants::{Block, Merge, Split};
use run_history::{blocks, merges, splits};
use std::alloc::{AllocError, Global};
use std::marker::Brand;
use std::sync::ledger::{Blank, Ledger};
use steps::Steps;

/// The first cells of two lists, and what comes after each of four cells.
fn lists(cells: &Cells) -> ([Option<u32>; 2], [Option<u32>; 4])
    requires cells { HasCells cells.now 4 }
    requires lists { length cells.now ≡ 2 }
{
    let firsts = [cells.first(0), cells.first(1)];
    let nexts = [cells.next(0), cells.next(1), cells.next(2), cells.next(3)];
    (firsts, nexts)
}

/// `cells`
pub fn cells(alloc: Global, out: &mut String) -> Result<(), AllocError> {
    let room = CellsRoom::make(alloc, 4, 2)?;
    let mut cells = room.fill();
    let made = lists(&cells);
    cells.move_to(1, 0, 1);
    cells.move_to(3, 0, 1);
    let moved = lists(&cells);
    cells.splice(1, 0);
    let spliced = lists(&cells);
    cells.splice(1, 0);
    let again = [cells.first(0), cells.first(1)];
    drop(cells);
    write!(out, "{made:?}\n{moved:?}\n{spliced:?}\n{again:?}")
}

/// Fills spans with room for five numbers, and appends what each call answers to the text.
fn put_filled(spans: &mut Spans, out: &mut String) -> Result<(), AllocError>
    requires { spans.old ≡ record { numbers = []; room = 5 } }
{
    let first = spans.push(&[7, 8, 9]);
    let refused = spans.push(&[1, 2, 3]);
    let used = spans.used();
    let second = spans.push(&[4, 5]);
    let full = spans.used();
    let none = spans.push(&[]);
    let over = spans.push(&[6]);
    write!(
        out,
        "{first:?} {refused:?} {used}\n{second:?} {full}\n{none:?} {over:?}\n"
    )
}

/// Appends parts of spans with five numbers to the text.
fn put_parts(spans: &Spans, out: &mut String) -> Result<(), AllocError> {
    if spans.used() != 5 {
        return out.push_str("not full");
    }
    let three = spans.get(Span { from: 0, len: 3 });
    let two = spans.get(Span { from: 3, len: 2 });
    let empty = spans.get(Span { from: 5, len: 0 });
    write!(out, "{three:?} {two:?} {empty:?}")
}

/// `spans`
pub fn spans(alloc: Global, out: &mut String) -> Result<(), AllocError> {
    let mut spans = Spans::make(alloc, 5)?;
    put_filled(&mut spans, out).and(put_parts(&spans, out))
}

/// Appends the lists of the log of a run to the text.
fn put_entries(run_log: &RunLog, out: &mut String) -> Result<(), AllocError> {
    let (splits, merges, blocks) = (run_log.splits(), run_log.merges(), run_log.blocks());
    write!(out, "{splits:?}\n{merges:?}\n{blocks:?}")
}

/// `entries`
pub fn entries(alloc: Global, out: &mut String) -> Result<(), AllocError> {
    let path = Span { from: 3, len: 2 };
    let mut run_log = RunLog::make(alloc, 1, 2, 1)?;
    run_log.add_merge(4, 6);
    run_log.add_split(5, 1, path);
    run_log.add_merge(2, 3);
    run_log.add_block(2, 4, 9, path);
    put_entries(&run_log, out)
}

/// Appends splits to the text.
fn put_splits(told: &mut String, list: &[Split]) -> Result<(), AllocError> {
    for split in list {
        write!(
            told,
            "split {} {} {:?}\n",
            split.inv,
            split.place,
            split.path.as_slice()
        )?;
    }
    Ok(())
}

/// Appends blocks to the text.
fn put_blocks(told: &mut String, list: &[Block]) -> Result<(), AllocError> {
    for block in list {
        write!(
            told,
            "block {} {} {} {:?}\n",
            block.p,
            block.q,
            block.inv,
            block.path.as_slice()
        )?;
    }
    Ok(())
}

/// Appends merges to the text.
fn put_merges(told: &mut String, list: &[Merge]) -> Result<(), AllocError> {
    for merge in list {
        write!(told, "merge {} {}\n", merge.p, merge.q)?;
    }
    Ok(())
}

/// Appends what the log of a run has to the text: splits, merges and blocks.
fn put_log(
    alloc: Global,
    told: &mut String,
    run_log: &RunLog,
    spans: &Spans,
) -> Result<(), AllocError>
    requires { HoldsPaths run_log.now spans.now }
{
    let others = both(merges(alloc, run_log), blocks(alloc, run_log, spans));
    let (splits, (merges, blocks)) = both(splits(alloc, run_log, spans), others)?;
    put_splits(told, splits.as_slice())
        .and(put_merges(told, merges.as_slice()))
        .and(put_blocks(told, blocks.as_slice()))
}

/// Adds to an empty log, and appends what it has then to the text. Of two paths the second belongs to a split and a block.
fn put_history(
    alloc: Global,
    told: &mut String,
    run_log: &mut RunLog,
    spans: &mut Spans,
) -> Result<(), AllocError>
    requires spans { spans.old ≡ record { numbers = []; room = 9 } }
    requires run_log { run_log.old ≡ record {
      splits = [];
      merges = [];
      blocks = [];
      split_room = 2;
      merge_room = 2;
      block_room = 1;
    } }
{
    let Some(first) = spans.push(&[0, 2, 3, 1]) else {
        return Ok(());
    };
    let Some(second) = spans.push(&[0, 4, 1]) else {
        return Ok(());
    };
    run_log.add_split(5, 2, first);
    run_log.add_merge(4, 6);
    run_log.add_split(7, 1, second);
    run_log.add_merge(2, 3);
    run_log.add_block(2, 4, 9, second);
    put_log(alloc, told, run_log, spans)
}

/// `history`
pub fn history(alloc: Global, out: &mut String) -> Result<(), AllocError> {
    let (mut spans, mut run_log) = both(Spans::make(alloc, 9), RunLog::make(alloc, 2, 2, 1))?;
    put_history(alloc, out, &mut run_log, &mut spans)
}

/// Three steps with a counter that others may use further.
fn take_three<L: Ledger>(steps: &mut Steps<L>)
    ensures { steps.new ≡ steps.old + 3 }
{
    steps.tick();
    steps.tick();
    steps.tick();
}

/// A call is proved only if the counter is at this count.
fn stands_at<L: Ledger>(_steps: &Steps<L>, count: u32) -> u32
    requires { _steps.now ≡ count }
    ensures { result ≡ count }
{
    count
}

/// How a caller that counts nothing calls a function that counts.
fn count_six<L: Ledger>(blank: Blank) -> u32
    requires name { blank.name ≡ L.name }
    requires parts { blank.parts ≡ L.parts }
    requires stands { 0 < blank.parts }
    ensures { result ≡ 6 }
{
    let mut steps = Steps::<L>::open(blank);
    take_three(&mut steps);
    take_three(&mut steps);
    stands_at(&steps, 6)
}

/// `steps`: a count, and the size of the counter in bytes.
pub fn steps(out: &mut String) -> Result<(), AllocError> {
    let count = count_six::<Brand>(Blank::new(1));
    let size = std::mem::size_of::<Steps<Brand>>();
    write!(out, "{count} {size}")
}
