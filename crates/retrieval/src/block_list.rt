//! Lists of blocks, stored as runs.
ghost use Rattle.std.specs.Prelude.{◌≡◌, ◌+◌, ◌-◌, ◌<◌, ◌≤◌, ◌^◌, ◌++◌, ◌∷◌, [], ℕ, IfSome, IfNone, OnOk, OnErr};
ghost use Rattle.std.specs.Prelude.{IfOk, IsOk, nat_le, length, take, drop, slice_get, slice_index, slice_set};
ghost use Rattle.std.specs.Prelude.{vec_len, vec_capacity};
ghost use Rattle.std.specs.List.Sorted.{IsNonDecreasing};
ghost use Rattle.retrieval.specs.Common.{BlocksState, IsAtOffset, blocks_of_runs, pairs_of, pair_of, part_blocks};
ghost use Rattle.retrieval.specs.Common.{behind, longest_runs, ends_of};

use crate::run::Run;
use blockdisk::NoMemory;
use std::alloc::Global;
use std::marker::Model;

/// Block numbers in order, stored as their longest runs of neighbours. With each run it stores how many blocks there
/// are up to its end, so that the run of a block is found by binary search.
#[derive(Drop)]
pub(crate) struct BlockList {
    runs: Vec<Run>,
    ends: Vec<usize>,
}

impl Model for BlockList {
    ghost use Rattle.std.specs.Prelude.{◌-◌, min, vec_len, vec_capacity};
    ghost use Rattle.retrieval.specs.Common.{BlocksState, blocks_of_runs, AreKept};

    ghost Value = { BlocksState };

    ghost view = { λ l. record {
      blocks = blocks_of_runs l.runs.items;
      spare = min (vec_capacity l.runs - vec_len l.runs) (vec_capacity l.ends - vec_len l.ends);
    } };

    ghost invariant = { λ l. AreKept l.runs.items l.ends.items };
}

/// Where a block is: the place of its run, and its offset in it.
#[derive(Clone, Copy)]
struct BlockPlace {
    run: usize,
    offset: u32,
}

/// Returns how many blocks the first `count` runs have, by their ends.
fn blocks_before(ends: &[usize], count: usize) -> usize
    requires { count ≤ length ends.now }
    ensures { result ≡ slice_index (0 ∷ ends.now) count }
{
    match count.checked_sub(1) {
        Some(last) => ends[last],
        None => 0,
    }
}

/// Returns how many of the runs end before the block at a place of the list.
fn runs_before(ends: &[usize], i: usize) -> usize
    requires { IsNonDecreasing ends.now }
    ensures bound { result ≤ length ends.now }
    ensures before { slice_index (0 ∷ ends.now) result ≤ i }
    ensures behind { result < length ends.now → i < slice_index ends.now result }
{
    ends.partition_point(
        |end|
            ensures { result ≡ nat_le end.now i }
        { *end <= i },
    )
}

/// Finds where the block at a place of the list is, if there is one, by binary search.
fn find(runs: &[Run], ends: &[usize], i: usize) -> Option<BlockPlace>
    requires { ends.now ≡ ends_of 0 (pairs_of runs.now) }
    ensures some { IfSome result (λ place. IsAtOffset runs.now i place.run place.offset) }
    ensures none { IfNone result (length (blocks_of_runs runs.now) ≤ i) }
{
    let at = runs_before(ends, i);
    if at == runs.len() {
        return None;
    }
    Some(BlockPlace {
        run: at,
        offset: runs[at].offset(i - blocks_before(ends, at)),
    })
}

/// Returns the last of the first `count` runs joined with another run, if that begins just after it.
fn joined_last(runs: &[Run], count: usize, run: Run) -> Option<Run>
    requires { count ≤ length runs.now }
    ensures some { IfSome result (λ _. 0 < count) }
    ensures joins { IfSome result (λ joined. pairs_of (take (count - 1) runs.now) ++ pair_of joined ∷ []
        ≡ behind (pairs_of (take count runs.now)) (pair_of run)) }
    ensures none { IfNone result (pairs_of (take count runs.now) ++ pair_of run ∷ []
        ≡ behind (pairs_of (take count runs.now)) (pair_of run)) }
{
    if count == 0 {
        return None;
    }
    let last = runs[count - 1];
    if !last.adjoins(run) {
        return None;
    }
    Some(last.joined(run))
}

/// Adds an end after the last, in memory that was allocated before.
fn push_end(ends: &mut Vec<usize>, end: usize)
    requires { vec_len ends.old < vec_capacity ends.old }
    ensures items { ends.new.items ≡ ends.old.items ++ end ∷ [] }
    ensures len { vec_len ends.new ≡ vec_len ends.old + 1 }
    ensures capacity { vec_capacity ends.old ≤ vec_capacity ends.new }
{
    match ends.push(end) {
        Ok(()) => (),
        Err(_) => unreachable!(), // there is memory for it
    }
}

/// Adds a run of its own after the last, and its end. Memory for both is allocated first.
fn add_run(runs: &mut Vec<Run>, ends: &mut Vec<usize>, run: Run, end: usize) -> Result<(), NoMemory>
    ensures runs { OnOk result (runs.new.items ≡ runs.old.items ++ run ∷ []) }
    ensures ends { OnOk result (ends.new.items ≡ ends.old.items ++ end ∷ []) }
    ensures same_runs { OnErr result (runs.new.items ≡ runs.old.items) }
    ensures same_ends { OnErr result (ends.new.items ≡ ends.old.items) }
    ensures spare_runs { vec_capacity runs.old - vec_len runs.old ≤ vec_capacity runs.new - vec_len runs.new + 1 }
    ensures spare_ends { vec_capacity ends.old - vec_len ends.old ≤ vec_capacity ends.new - vec_len ends.new + 1 }
    ensures room { 0 < vec_capacity runs.old - vec_len runs.old → 0 < vec_capacity ends.old - vec_len ends.old
        → IsOk result }
{
    let Ok(()) = ends.reserve(1) else {
        return Err(NoMemory);
    };
    let Ok(()) = runs.push(run) else {
        return Err(NoMemory);
    };
    push_end(ends, end);
    Ok(())
}

/// Adds a run after the last, or makes the last longer if that ends just before. `end` is how many blocks there are
/// then.
fn push_run(
    runs: &mut Vec<Run>,
    ends: &mut Vec<usize>,
    run: Run,
    end: usize,
) -> Result<(), NoMemory>
    requires ends { ends.old.items ≡ ends_of 0 (pairs_of runs.old.items) }
    requires end { end ≡ length (blocks_of_runs runs.old.items) + (pair_of run).0 }
    ensures ok { OnOk result (pairs_of runs.new.items ≡ behind (pairs_of runs.old.items) (pair_of run)) }
    ensures ends { OnOk result (ends.new.items ≡ ends_of 0 (pairs_of runs.new.items)) }
    ensures same_runs { OnErr result (runs.new.items ≡ runs.old.items) }
    ensures same_ends { OnErr result (ends.new.items ≡ ends.old.items) }
    ensures spare_runs { vec_capacity runs.old - vec_len runs.old ≤ vec_capacity runs.new - vec_len runs.new + 1 }
    ensures spare_ends { vec_capacity ends.old - vec_len ends.old ≤ vec_capacity ends.new - vec_len ends.new + 1 }
    ensures room { 0 < vec_capacity runs.old - vec_len runs.old → 0 < vec_capacity ends.old - vec_len ends.old
        → IsOk result }
{
    let count = runs.len();
    if let Some(joined) = joined_last(runs, count, run) {
        runs[count - 1] = joined;
        ends[count - 1] = end;
        return Ok(());
    }
    add_run(runs, ends, run, end)
}

/// Inserts the run of a part at a place, if there is one.
fn insert_part(runs: &mut Vec<Run>, at: usize, part: Option<Run>)
    requires at { at ≤ vec_len runs.old }
    requires spare { 0 < vec_capacity runs.old - vec_len runs.old }
    ensures front { take at runs.new.items ≡ take at runs.old.items }
    ensures rest { blocks_of_runs (drop at runs.new.items)
        ≡ part_blocks part ++ blocks_of_runs (drop at runs.old.items) }
    ensures spare { vec_capacity runs.old - vec_len runs.old ≤ vec_capacity runs.new - vec_len runs.new + 1 }
    ensures long { vec_len runs.old ≤ vec_len runs.new }
    ensures few { vec_len runs.new ≤ vec_len runs.old + 1 }
{
    let Some(run) = part else {
        return;
    };
    match runs.insert(at, run) {
        Ok(()) => (),
        Err(_) => unreachable!(), // there is memory for it
    }
}

/// Puts a run after the first `kept` runs, or makes the last of them longer if that ends just before. Returns how many
/// runs these are then.
fn join_next(runs: &mut Vec<Run>, kept: usize, run: Run) -> usize
    requires { kept < vec_len runs.old }
    ensures joined { pairs_of (take result runs.new.items)
        ≡ behind (pairs_of (take kept runs.old.items)) (pair_of run) }
    ensures rest { drop (kept + 1) runs.new.items ≡ drop (kept + 1) runs.old.items }
    ensures few { result ≤ kept + 1 }
    ensures long { vec_len runs.new ≡ vec_len runs.old }
    ensures capacity { vec_capacity runs.new ≡ vec_capacity runs.old }
{
    if let Some(joined) = joined_last(runs, kept, run) {
        runs[kept - 1] = joined;
        return kept;
    }
    runs[kept] = run;
    kept + 1
}

/// Joins runs with those that begin just after them.
fn join_all(runs: &mut Vec<Run>)
    ensures are_longest { pairs_of runs.new.items ≡ longest_runs (blocks_of_runs runs.old.items) }
    ensures spare { vec_capacity runs.old - vec_len runs.old ≤ vec_capacity runs.new - vec_len runs.new }
    ensures few { vec_len runs.new ≤ vec_len runs.old }
{
    let mut kept = 0;
    for i in 0..runs.len() {
        let run = runs[i];
        kept = join_next(runs, kept, run);
    }
    runs.truncate(kept);
}

/// Puts another block at an offset in a run: the blocks before and after it become runs of their own, unless they
/// join it or others.
fn put_at(runs: &mut Vec<Run>, place: BlockPlace, n: u32)
    requires below { place.run < vec_len runs.old }
    requires inside { IfSome (slice_get runs.old.items place.run) (λ run. place.offset ≤ run.last - run.first) }
    requires spare { 2 ≤ vec_capacity runs.old - vec_len runs.old }
    ensures blocks { blocks_of_runs runs.new.items ≡ slice_set (blocks_of_runs runs.old.items)
        (length (blocks_of_runs (take place.run runs.old.items)) + place.offset) n }
    ensures are_longest { pairs_of runs.new.items ≡ longest_runs (blocks_of_runs runs.new.items) }
    ensures spare { vec_capacity runs.old - vec_len runs.old ≤ vec_capacity runs.new - vec_len runs.new + 2 }
    ensures few { vec_len runs.new ≤ vec_len runs.old + 2 }
{
    let run = runs[place.run];
    runs[place.run] = Run::of(n);
    insert_part(runs, place.run + 1, run.behind(place.offset));
    insert_part(runs, place.run, run.before(place.offset));
    join_all(runs);
}

/// Makes the ends of runs anew, in memory that was allocated before.
fn make_ends(ends: &mut Vec<usize>, runs: &[Run])
    requires room { length runs.now ≤ vec_capacity ends.old }
    requires few { length (blocks_of_runs runs.now) < 2 ^ 64 }
    ensures ends { ends.new.items ≡ ends_of 0 (pairs_of runs.now) }
    ensures capacity { vec_capacity ends.old ≤ vec_capacity ends.new }
{
    ends.clear();
    let mut end = 0;
    for run in runs {
        end += run.count();
        push_end(ends, end);
    }
}

/// Puts another block at an offset in a run, and makes the ends anew. There is memory for two more runs in both lists.
fn put_block(runs: &mut Vec<Run>, ends: &mut Vec<usize>, place: BlockPlace, n: u32)
    requires below { place.run < vec_len runs.old }
    requires inside { IfSome (slice_get runs.old.items place.run) (λ run. place.offset ≤ run.last - run.first) }
    requires ends { ends.old.items ≡ ends_of 0 (pairs_of runs.old.items) }
    requires few { length (blocks_of_runs runs.old.items) < 2 ^ 64 }
    requires spare_runs { 2 ≤ vec_capacity runs.old - vec_len runs.old }
    requires spare_ends { 2 ≤ vec_capacity ends.old - vec_len ends.old }
    ensures blocks { blocks_of_runs runs.new.items ≡ slice_set (blocks_of_runs runs.old.items)
        (length (blocks_of_runs (take place.run runs.old.items)) + place.offset) n }
    ensures are_longest { pairs_of runs.new.items ≡ longest_runs (blocks_of_runs runs.new.items) }
    ensures ends { ends.new.items ≡ ends_of 0 (pairs_of runs.new.items) }
    ensures spare_runs { vec_capacity runs.old - vec_len runs.old ≤ vec_capacity runs.new - vec_len runs.new + 2 }
    ensures spare_ends { vec_capacity ends.old - vec_len ends.old ≤ vec_capacity ends.new - vec_len ends.new + 2 }
{
    put_at(runs, place, n);
    make_ends(ends, runs);
}

impl BlockList {
    /// Returns an empty list. It takes no memory yet.
    pub(crate) fn new(alloc: Global) -> Self
        ensures { result.blocks ≡ [] }
    {
        BlockList {
            runs: Vec::new(alloc),
            ends: Vec::new(alloc),
        }
    }

    /// Returns how many blocks there are.
    pub(crate) fn len(&self) -> usize
        ensures { result ≡ length self.now.blocks }
    {
        blocks_before(&self.ends, self.ends.len())
    }

    /// Returns the longest runs of the blocks.
    pub(crate) fn runs(&self) -> &[Run]
        ensures blocks { blocks_of_runs result.now ≡ self.now.blocks }
        ensures are_longest { pairs_of result.now ≡ longest_runs self.now.blocks }
    {
        self.runs.as_slice()
    }

    /// Returns the block at a place, counted from 0, or `None` past the last.
    pub(crate) fn get(&self, i: usize) -> Option<u32>
        ensures { result ≡ slice_get self.now.blocks i }
    {
        let place = find(&self.runs, &self.ends, i)?;
        Some(self.runs[place.run].at(place.offset))
    }

    /// Returns the block at a place.
    pub(crate) fn at(&self, i: usize) -> u32
        requires { i < length self.now.blocks }
        ensures { result ≡ slice_index self.now.blocks i }
    {
        match self.get(i) {
            Some(block) => block,
            None => unreachable!(), // it is in the list
        }
    }

    /// Returns the block at a place, with all neighbours that follow it in the list.
    pub(crate) fn run_at(&self, i: usize) -> Run
        requires { i < length self.now.blocks }
        ensures within { i + (result.last - result.first) < length self.now.blocks }
        ensures side_by_side { (j : ℕ) → j ≤ result.last - result.first
            → slice_index self.now.blocks (i + j) ≡ result.first + j }
        ensures longest { i + (result.last - result.first) + 1 < length self.now.blocks
            → slice_index self.now.blocks (i + (result.last - result.first) + 1) ≡ result.last + 1 → ⊥ }
    {
        match find(&self.runs, &self.ends, i) {
            Some(place) => self.runs[place.run].rest(place.offset),
            None => unreachable!(), // it is in the list
        }
    }

    /// Reserves memory for `more` more runs.
    ///
    /// # Errors
    ///
    /// `NoMemory` if there is none; nothing changes then.
    pub(crate) fn reserve(&mut self, more: usize) -> Result<(), NoMemory>
        ensures blocks { self.new.blocks ≡ self.old.blocks }
        ensures ok { OnOk result (more ≤ self.new.spare) }
    {
        let Ok(()) = self.runs.reserve(more) else {
            return Err(NoMemory);
        };
        match self.ends.reserve(more) {
            Ok(()) => Ok(()),
            Err(_) => Err(NoMemory),
        }
    }

    /// Adds a block after the last. It takes no memory if it makes a run longer.
    ///
    /// # Errors
    ///
    /// `NoMemory` if there is no memory; nothing changes then.
    pub(crate) fn push(&mut self, n: u32) -> Result<(), NoMemory>
        ensures ok { OnOk result (self.new.blocks ≡ self.old.blocks ++ n ∷ []) }
        ensures err { OnErr result (self.new.blocks ≡ self.old.blocks) }
        ensures spare { self.old.spare ≤ self.new.spare + 1 }
        ensures room { 0 < self.old.spare → length self.old.blocks + 1 < 2 ^ 64 → IsOk result }
    {
        let Some(end) = self.len().checked_add(1) else {
            return Err(NoMemory);
        };
        push_run(&mut self.runs, &mut self.ends, Run::of(n), end)
    }

    /// Puts another block at a place, in memory that was allocated before.
    pub(crate) fn set(&mut self, i: usize, n: u32)
        requires below { i < length self.old.blocks }
        requires spare { 2 ≤ self.old.spare }
        ensures blocks { self.new.blocks ≡ slice_set self.old.blocks i n }
        ensures spare { self.old.spare ≤ self.new.spare + 2 }
    {
        let _count = self.len(); // it is a usize, and no end is above it
        match find(&self.runs, &self.ends, i) {
            Some(place) => put_block(&mut self.runs, &mut self.ends, place, n),
            None => unreachable!(), // it is in the list
        }
    }

    /// Returns an equal list.
    ///
    /// # Errors
    ///
    /// `NoMemory` if there is no memory.
    pub(crate) fn copy(&self) -> Result<BlockList, NoMemory>
        ensures { IfOk result (λ list. list.blocks ≡ self.now.blocks) }
    {
        Ok(BlockList {
            runs: self.runs.clone()?,
            ends: self.ends.clone()?,
        })
    }
}
