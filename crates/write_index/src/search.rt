//! The search for the last span that has a page. It asks a node for its pages through `look` alone, which counts.

ghost use Rattle.std.specs.Prelude.{◌≡◌, ◌+◌, ◌-◌, ◌*◌, ◌/◌, ◌^◌, ◌<◌, ◌≤◌, ℕ, IfSome, IsFalse, IsTrue, false, length, min};
ghost use Rattle.r3k_pages.specs.Pages.{holds};
ghost use Rattle.write_index.specs.Pages.{IsLast, pages_at};
ghost use Rattle.write_index.specs.Tree.{IsTree, bottom};

use crate::level::Level;

/// How many nodes were asked for their pages, up to the greatest number there is.
#[derive(Clone, Copy, Debug, PartialEq, Eq)]
pub struct Asked {
    pub nodes: u64,
}

/// The greatest node of the lowest level, below one, that has a page.
pub(crate) fn last_in(levels: &[Level], end: usize, page: u32, asked: &mut Asked) -> Option<usize>
    requires tree { IsTree end levels.now }
    ensures last { IsLast (bottom levels.now) page end result }
    ensures asked { (digits : ℕ) → end < 2 ^ digits → asked.new.nodes ≤ asked.old.nodes + 2 * digits }
    ensures counted { asked.old.nodes ≤ asked.new.nodes }
    ensures found { IfSome result (λ _. min (asked.old.nodes + 1) (2 ^ 64 - 1) ≤ asked.new.nodes) }
{
    match levels.split_first() {
        None => None,
        Some((level, above)) => {
            if end == 0 {
                return None;
            }
            if look_at_odd(level, end, page, asked) {
                return Some(end - 1);
            }
            let pair = last_in(above, end / 2, page, asked)?;
            if look(level, 2 * pair + 1, page, asked) {
                return Some(2 * pair + 1);
            }
            Some(2 * pair)
        }
    }
}

// Whether the last node below one has a page, where it is the first of its pair.
fn look_at_odd(level: &Level, end: usize, page: u32, asked: &mut Asked) -> bool
    requires some { 0 < end }
    requires end { end ≤ length level.now }
    ensures held { IsTrue result → IsTrue (holds (pages_at level.now (end - 1)) page) }
    ensures not { IsFalse result → (m : ℕ) → 2 * (end / 2) ≤ m → m < end → IsFalse (holds (pages_at level.now m) page) }
    ensures asked { asked.new.nodes ≤ asked.old.nodes + 1 }
    ensures counted { asked.old.nodes ≤ asked.new.nodes }
    ensures found { IsTrue result → asked.new.nodes ≡ min (asked.old.nodes + 1) (2 ^ 64 - 1) }
{
    if end % 2 == 0 {
        return false;
    }
    look(level, end - 1, page, asked)
}

// Whether a node has a page.
fn look(level: &Level, node: usize, page: u32, asked: &mut Asked) -> bool
    requires { node < length level.now }
    ensures value { result ≡ holds (pages_at level.now node) page }
    ensures asked { asked.new.nodes ≡ min (asked.old.nodes + 1) (2 ^ 64 - 1) }
    ensures counted { asked.old.nodes ≤ asked.new.nodes }
{
    asked.nodes = asked.nodes.saturating_add(1);
    level.node(node).holds(page)
}
