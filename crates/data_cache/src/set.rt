//! One set of a cache: its lines, the most recent first.

ghost use Rattle.std.specs.Prelude.{◌≡◌, ◌<◌, ◌≤◌, ◌+◌, ◌-◌, ◌%◌, ◌∷◌, Some, None, MatchOption, IfOk, IfErr, OnOk};
ghost use Rattle.std.specs.Prelude.{length, vec_len, vec_capacity, take, IsTrue};
ghost use Rattle.request_plan.specs.Plan.{Ends, Stops};
ghost use Rattle.rv32_core.specs.Access.{slice_of};
ghost use Rattle.data_cache.specs.Contents.{find_line, StandsAt, moved, settle, obtain, replace, first_bytes, written};
ghost use Rattle.data_cache.specs.Contents.{HoldsBelow};
ghost use Rattle.data_cache.specs.Front.{StandsFirst};

use crate::store::LineStore;
use asc_base::Line;

/// A line that is held.
#[derive(Clone, Copy, Debug, PartialEq, Eq)]
pub struct Held {
    /// Which line it is.
    pub line: u32,
    /// It was changed since it came or was last stored.
    pub dirty: bool,
    /// Its bytes.
    pub value: Line,
}

/// Which of the sets is a line's: by a mask and not by a division, where their number is a power of two.
#[tactic(auto, using(crate::proofs::Masks::masked_is))]
#[inline(always)]
pub(crate) fn set_index(sets: &Vec<Vec<Held>>, line: u32) -> usize
    requires { 0 < vec_len sets.now }
    ensures set { result ≡ line % vec_len sets.now }
    ensures inside { result < vec_len sets.now }
{
    let count = sets.len();
    if count & (count - 1) == 0 {
        return line as usize & (count - 1);
    }
    line as usize % count
}

/// Where a line stands in a set.
fn place(set: &[Held], line: u32) -> Option<usize>
    ensures { MatchOption result (find_line line set.now ≡ None) (λ i. (i < length set.now) × StandsAt line set.now i) }
{
    for i in 0..set.len() {
        if set[i].line == line {
            return Some(i);
        }
    }
    None
}

/// Whether a line is the first of a set.
#[inline(always)]
fn is_first(set: &[Held], line: u32) -> bool
    ensures { IsTrue result → StandsFirst line set.now }
{
    !set.is_empty() && set[0].line == line
}

/// Moves the line at `i` to the front.
fn to_front(set: &mut [Held], i: usize)
    requires { i < length set.old }
    ensures { set.new ≡ moved i set.old }
{
    set[..=i].rotate_right(1);
}

/// Stores a dirty last line of a full set, which is clean then.
fn settle_last<S: LineStore>(set: &mut [Held], ways: usize, store: &mut S) -> Result<(), S::Stop>
    requires ways { 0 < ways }
    requires fits { length set.old ≤ ways }
    requires lines { HoldsBelow (S.lines store.old) set.old }
    requires ready { S.ready store.old }
    ensures ready { OnOk result (S.ready store.new) }
    ensures ok { IfOk result (λ _. Ends S.step (settle ways set.old) store.old store.new set.new) }
    ensures err { IfErr result (λ stop. Stops S.step (settle ways set.old) store.old store.new stop set.new) }
{
    if set.len() < ways {
        return Ok(());
    }
    let last = ways - 1;
    if !set[last].dirty {
        return Ok(());
    }
    store.store(set[last].line, &set[last].value)?;
    set[last].dirty = false;
    Ok(())
}

/// Puts a line first, in the place of the last one of a full set.
fn push_first(set: &mut Vec<Held>, ways: usize, held: Held)
    requires ways { 0 < ways }
    requires fits { vec_len set.old ≤ ways }
    requires room { ways ≤ vec_capacity set.old }
    ensures items { set.new.items ≡ held ∷ take (ways - 1) set.old.items }
    ensures room { vec_capacity set.old ≤ vec_capacity set.new }
{
    if set.len() < ways {
        set.push(held).unwrap();
    } else {
        set[ways - 1] = held;
    }
    set.rotate_right(1);
}

/// Brings a line to the front of its set, and fetches it where it isn't held. Mostly it is at the front.
#[inline(always)]
#[tactic(auto, using(crate::proofs::SetLaws::first_obtained))]
pub(crate) fn bring<S: LineStore>(
    set: &mut Vec<Held>,
    ways: usize,
    store: &mut S,
    line: u32,
) -> Result<(), S::Stop>
    requires ways { 0 < ways }
    requires fits { vec_len set.old ≤ ways }
    requires room { ways ≤ vec_capacity set.old }
    requires line { line < S.lines store.old }
    requires ready { S.ready store.old }
    requires lines { HoldsBelow (S.lines store.old) set.old.items }
    ensures ok { IfOk result (λ _. Ends S.step (obtain ways set.old.items line) store.old store.new set.new.items) }
    ensures err { IfErr result (λ stop. Stops S.step
        (obtain ways set.old.items line) store.old store.new stop set.new.items) }
    ensures room { vec_capacity set.old ≤ vec_capacity set.new }
    ensures fits { vec_len set.new ≤ ways }
    ensures first { OnOk result (0 < vec_len set.new) }
    ensures below { HoldsBelow (S.lines store.old) set.new.items }
    ensures same { S.lines store.new ≡ S.lines store.old }
{
    if is_first(set, line) {
        return Ok(());
    }
    bring_forward(set, ways, store, line)
}

/// Brings a line to the front of its set from anywhere in it, and fetches it where it isn't held.
#[inline(never)]
fn bring_forward<S: LineStore>(
    set: &mut Vec<Held>,
    ways: usize,
    store: &mut S,
    line: u32,
) -> Result<(), S::Stop>
    requires ways { 0 < ways }
    requires fits { vec_len set.old ≤ ways }
    requires room { ways ≤ vec_capacity set.old }
    requires line { line < S.lines store.old }
    requires ready { S.ready store.old }
    requires lines { HoldsBelow (S.lines store.old) set.old.items }
    ensures ok { IfOk result (λ _. Ends S.step (obtain ways set.old.items line) store.old store.new set.new.items) }
    ensures err { IfErr result (λ stop. Stops S.step
        (obtain ways set.old.items line) store.old store.new stop set.new.items) }
    ensures room { vec_capacity set.old ≤ vec_capacity set.new }
    ensures fits { vec_len set.new ≤ ways }
    ensures first { OnOk result (0 < vec_len set.new) }
    ensures below { HoldsBelow (S.lines store.old) set.new.items }
    ensures same { S.lines store.new ≡ S.lines store.old }
{
    if let Some(i) = place(set, line) {
        to_front(set, i);
        return Ok(());
    }
    settle_last(set, ways, store)?; // before the fetch
    let value = store.fetch(line)?;
    push_first(
        set,
        ways,
        Held {
            line,
            dirty: false,
            value,
        },
    );
    Ok(())
}

/// Puts a new line first in its set, dirty, in the place of an old one of the same number. It isn't fetched.
pub(crate) fn put_whole<S: LineStore>(
    set: &mut Vec<Held>,
    ways: usize,
    store: &mut S,
    line: u32,
    value: Line,
) -> Result<(), S::Stop>
    requires ways { 0 < ways }
    requires fits { vec_len set.old ≤ ways }
    requires room { ways ≤ vec_capacity set.old }
    requires line { line < S.lines store.old }
    requires ready { S.ready store.old }
    requires lines { HoldsBelow (S.lines store.old) set.old.items }
    ensures ok { IfOk result (λ _. Ends S.step
        (replace ways set.old.items line value) store.old store.new set.new.items) }
    ensures err { IfErr result (λ stop. Stops S.step
        (replace ways set.old.items line value) store.old store.new stop set.new.items) }
    ensures room { vec_capacity set.old ≤ vec_capacity set.new }
    ensures fits { vec_len set.new ≤ ways }
    ensures below { HoldsBelow (S.lines store.old) set.new.items }
    ensures same { S.lines store.new ≡ S.lines store.old }
{
    let held = Held {
        line,
        dirty: true,
        value,
    };
    if let Some(i) = place(set, line) {
        to_front(set, i);
        set[0] = held;
        return Ok(());
    }
    settle_last(set, ways, store)?;
    push_first(set, ways, held);
    Ok(())
}

/// Reads bytes of the first line.
#[inline(always)]
pub(crate) fn read_first(set: &[Held], offset: usize, into: &mut [u8])
    requires first { 0 < length set.now }
    requires range { offset + length into.old ≤ 64 }
    ensures { into.new ≡ slice_of (first_bytes set.now) offset (length into.old) }
{
    let first = &set[0].value.0[..];
    into.copy_from_slice(&first[offset..offset + into.len()]);
}

/// Writes bytes into the first line, which is dirty then.
#[inline(always)]
pub(crate) fn write_first(set: &mut Vec<Held>, offset: usize, bytes: &[u8])
    requires first { 0 < vec_len set.old }
    requires range { offset + length bytes.now ≤ 64 }
    ensures items { set.new.items ≡ written offset bytes.now set.old.items }
    ensures len { vec_len set.new ≡ vec_len set.old }
    ensures room { vec_capacity set.new ≡ vec_capacity set.old }
{
    let held = &mut set[0];
    held.value.0[offset..offset + bytes.len()].copy_from_slice(bytes);
    held.dirty = true;
}
