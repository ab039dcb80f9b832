//! The tree by its levels, the lowest first.

ghost use Rattle.std.specs.Prelude.{◌≡◌, ◌+◌, ◌*◌, ◌/◌, ◌^◌, ◌<◌, ◌≤◌, ℕ, [], IfOk, OnErr, length, max, slice_set};
ghost use Rattle.r3k_pages.specs.Pages.{holds};
ghost use Rattle.write_index.specs.Pages.{IsLast, IsUnion, pages_at};
ghost use Rattle.write_index.specs.Tree.{Grown, HasRoom, IsPut, IsTree, IsTreeBut, Same, bottom};
ghost use Rattle.write_index.specs.declared.tree.TheConstants.{LEVELS, MAX_SPANS};

use crate::level::Level;
use crate::page_set::PageSet;
use std::alloc::{AllocError, Global};

/// How many levels hold all spans that there may be: one for each binary digit of their number.
pub(crate) const LEVELS: usize = 35;

/// How many spans there may be: those of all positions up to 2^40 - 1, where a span has 64 steps.
pub const MAX_SPANS: u64 = 1 << (LEVELS - 1);

/// Makes all levels.
pub(crate) fn deepen(alloc: Global, levels: &mut Vec<Level>) -> Result<(), AllocError>
    requires { length levels.old.items ≤ LEVELS }
    ensures few { length levels.new.items ≤ LEVELS }
    ensures all { IfOk result (λ _. length levels.new.items ≡ LEVELS) }
    ensures same { length levels.old.items ≡ LEVELS → levels.new.items ≡ levels.old.items }
{
    while levels.len() < LEVELS {
        levels.push(Level::new(alloc))?;
    }
    Ok(())
}

/// Puts the pages of a span in their place. There may be fewer spans before, or more. Where memory is refused, the spans stay.
#[tactic(auto, using(crate::proofs::Putting::tree_grown, crate::proofs::Putting::same_grown, crate::proofs::Putting::less_room, crate::proofs::Putting::tree_but, crate::proofs::Putting::tree_less))]
pub(crate) fn update(
    alloc: Global,
    levels: &mut [Level],
    held: usize,
    index: usize,
    set: PageSet,
) -> Result<(), AllocError>
    requires deep { length levels.old ≡ LEVELS }
    requires held { held ≤ MAX_SPANS }
    requires index { index < MAX_SPANS }
    requires tree { IsTree held levels.old }
    ensures tree { IfOk result (λ _. IsTree (max held (index + 1)) levels.new) }
    ensures bottom { IfOk result (λ _. IsPut held index set (bottom levels.old) (bottom levels.new)) }
    ensures same { OnErr result (IsTree held levels.new × Same held (bottom levels.old) (bottom levels.new)) }
{
    let count = held.max(index + 1);
    grow(alloc, levels, count)?;
    fill(alloc, levels, held, index)?;
    put(alloc, levels, count, index, set)
}

// Makes room for `count` spans.
#[tactic(auto, using(crate::proofs::Putting::grown_same, crate::proofs::Putting::room_none))]
fn grow(alloc: Global, levels: &mut [Level], count: usize) -> Result<(), AllocError>
    requires { count < 2 ^ length levels.old }
    ensures grown { Grown levels.old levels.new }
    ensures room { IfOk result (λ _. HasRoom count levels.new) }
{
    match levels.split_first_mut() {
        None => Ok(()),
        Some((level, above)) => {
            if count == 0 {
                return Ok(());
            }
            level.grow(alloc, count)?;
            grow(alloc, above, count / 2)
        }
    }
}

// Puts spans with no pages after the first `count` ones, up to `end`.
#[tactic(auto, using(crate::proofs::Putting::less_room, crate::proofs::Putting::tree_but, crate::proofs::Putting::tree_less))]
fn fill(alloc: Global, levels: &mut [Level], count: usize, end: usize) -> Result<(), AllocError>
    requires tree { IsTree count levels.old }
    requires room { HasRoom end levels.old }
    ensures tree { IfOk result (λ _. IsTree (max count end) levels.new) }
    ensures none { IfOk result (λ _. (m : ℕ) → count ≤ m → m < end → pages_at (bottom levels.new) m ≡ []) }
    ensures kept { Same count (bottom levels.old) (bottom levels.new) }
    ensures refused { OnErr result (IsTree count levels.new) }
    ensures room { (n : ℕ) → HasRoom n levels.old → HasRoom n levels.new }
{
    for node in count..end {
        put(alloc, levels, node + 1, node, PageSet::empty(alloc))?;
    }
    Ok(())
}

// Puts the pages of a span in their place, and makes the unions that rest on them anew. The unions are made first, so where memory
// is refused, all is as it was.
fn put(
    alloc: Global,
    levels: &mut [Level],
    count: usize,
    node: usize,
    set: PageSet,
) -> Result<(), AllocError>
    requires node { node < count }
    requires tree { IsTreeBut node count levels.old }
    ensures tree { IfOk result (λ _. IsTree count levels.new) }
    ensures bottom { IfOk result (λ _. bottom levels.new ≡ slice_set (bottom levels.old) node set) }
    ensures same { OnErr result (levels.new ≡ levels.old) }
    ensures room { (n : ℕ) → HasRoom n levels.old → HasRoom n levels.new }
{
    if let Some((level, above)) = levels.split_first_mut() {
        let pair = node / 2;
        if pair < count / 2 {
            let both = paired(alloc, level, node, &set)?;
            put(alloc, above, count / 2, pair, both)?;
        }
        level.put(node, set);
    }
    Ok(())
}

// The pages of a node that is to be put, and of the other one of its pair.
fn paired(alloc: Global, level: &Level, node: usize, set: &PageSet) -> Result<PageSet, AllocError>
    requires { 2 * (node / 2) + 1 < length level.now }
    ensures { IfOk result (λ both. IsUnion (pages_at (slice_set level.now node set.now) (2 * (node / 2))) (pages_at (slice_set level.now node set.now) (2 * (node / 2) + 1)) both) }
{
    if node % 2 == 0 {
        return set.union(alloc, level.node(node + 1));
    }
    level.node(node - 1).union(alloc, set)
}
