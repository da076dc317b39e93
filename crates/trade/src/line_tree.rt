//! Lines in a balanced tree, in order of their orders' keys: what trees have in common is shared, and not copied.

ghost use Rattle.std.specs.Prelude.{◌≡◌, ◌≤◌, ◌^◌, [], ◌++◌, ◌∷◌, IfOk, OnOk, MatchOption, option_copied};
ghost use Rattle.base.specs.declared.entity.Kind.TheVariants.{Order};
ghost use Rattle.trade.specs.Lines.{line_of, with_line, with_line_phase, total};
ghost use Rattle.trade.specs.LineTree.{items};
ghost use Rattle.trade.specs.Sound.{AreLinesSound};

use crate::{Line, LinePhase};
use base::Entity;
use std::alloc::{AllocError, Global};
use std::cmp::Ordering;
use std::fmt::{self, DebugList};
use std::sync::Arc;

/// Lines: none; or those before a line, the line, how high the tree is, and those after the line.
///
/// The height is a hint: where it isn't exact a search takes longer, and finds the same.
#[derive(Drop)]
pub enum Tree {
    /// No line.
    Leaf,
    /// A line among others.
    Node(Arc<Tree>, Arc<Line>, u32, Arc<Tree>),
}

/// The line of an order, if it has one.
#[tactic(auto, using(crate::proofs::Placing::finding))]
pub(crate) fn find<'a>(tree: &'a Tree, order: &Entity) -> Option<&'a Line>
    ensures { AreLinesSound (items tree.now) → option_copied result ≡ line_of order.now (items tree.now) }
{
    match tree {
        Tree::Leaf => None,
        Tree::Node(left, line, _, right) => match order.cmp(line.as_ref().order()) {
            Ordering::Less => find(left.as_ref(), order),
            Ordering::Equal => Some(line.as_ref()),
            Ordering::Greater => find(right.as_ref(), order),
        },
    }
}

/// The tree of one line.
///
/// # Errors
/// If an allocation fails.
pub(crate) fn of_one(alloc: Global, line: Arc<Line>) -> Result<Arc<Tree>, AllocError>
    ensures { IfOk result (λ t. items t.value ≡ line.value ∷ []) }
{
    let leaf = Arc::new(alloc, Tree::Leaf)?;
    // One leaf serves on both sides.
    node(alloc, leaf.clone()?, line, leaf)
}

/// The tree with one more line, in its place.
///
/// # Errors
/// If an allocation fails.
#[tactic(auto, using(crate::proofs::Placing::adding))]
pub(crate) fn with_line(
    alloc: Global,
    tree: &Arc<Tree>,
    line: Arc<Line>,
) -> Result<Arc<Tree>, AllocError>
    requires { line.value.order.kind ≡ Order }
    ensures { IfOk result (λ t. AreLinesSound (items tree.now.value)
        → items t.value ≡ with_line line.value (items tree.now.value)) }
{
    match tree.as_ref() {
        // The leaf that is there serves on both sides.
        Tree::Leaf => node(alloc, tree.clone()?, line, tree.clone()?),
        Tree::Node(left, here, _, right) => match line.as_ref().order().cmp(here.as_ref().order()) {
            Ordering::Less => {
                let left = with_line(alloc, left, line)?;
                // The other side is shared: only the path to the line is made again.
                join(alloc, left, here.clone()?, right.clone()?)
            }
            // Equal never comes up: an order has one line at most.
            Ordering::Equal | Ordering::Greater => {
                let right = with_line(alloc, right, line)?;
                join(alloc, left.clone()?, here.clone()?, right)
            }
        },
    }
}

/// The tree, with this phase for the order's line.
///
/// # Errors
/// If an allocation fails.
#[tactic(auto, using(crate::proofs::Placing::changing))]
pub(crate) fn with_phase(
    alloc: Global,
    tree: &Arc<Tree>,
    order: &Entity,
    phase: LinePhase,
) -> Result<Arc<Tree>, AllocError>
    ensures { IfOk result (λ t. AreLinesSound (items tree.now.value)
        → items t.value ≡ with_line_phase order.now phase (items tree.now.value)) }
{
    match tree.as_ref() {
        Tree::Leaf => Ok(tree.clone()?),
        Tree::Node(left, line, height, right) => match order.cmp(line.as_ref().order()) {
            Ordering::Less => {
                let left = with_phase(alloc, left, order, phase)?;
                // The shape stays, and so does the height.
                kept(alloc, left, line.clone()?, *height, right.clone()?)
            }
            Ordering::Equal => {
                // Made again and not changed: older copies of the tree have this line too.
                let line = Arc::new(alloc, line.as_ref().in_phase(alloc, phase)?)?;
                kept(alloc, left.clone()?, line, *height, right.clone()?)
            }
            Ordering::Greater => {
                let right = with_phase(alloc, right, order, phase)?;
                kept(alloc, left.clone()?, line.clone()?, *height, right)
            }
        },
    }
}

/// How much the lines in a phase are for, together; `None` from 2^64 on.
pub(crate) fn total(tree: &Tree, phase: LinePhase) -> Option<u64>
    ensures { MatchOption result (2 ^ 64 ≤ total phase (items tree.now)) (λ sum. sum ≡ total phase (items tree.now)) }
{
    match tree {
        Tree::Leaf => Some(0),
        // Checked, though each share is at most 2^40: no bound is known for the number of lines.
        Tree::Node(left, line, _, right) => total(left.as_ref(), phase)?
            .checked_add(line.as_ref().share_of(phase))?
            .checked_add(total(right.as_ref(), phase)?),
    }
}

/// Puts copies of all lines after others, in order.
///
/// # Errors
/// If an allocation fails.
pub(crate) fn push_all(alloc: Global, tree: &Tree, lines: &mut Vec<Line>) -> Result<(), AllocError>
    ensures { OnOk result (lines.new.items ≡ lines.old.items ++ items tree.now) }
{
    match tree {
        Tree::Leaf => Ok(()),
        Tree::Node(left, line, _, right) => {
            push_all(alloc, left.as_ref(), lines)?;
            lines.push(line.as_ref().copy(alloc)?)?;
            push_all(alloc, right.as_ref(), lines)
        }
    }
}

/// Shows all lines as a list's, in order.
pub(crate) fn show<W: fmt::Write>(tree: &Tree, list: &mut DebugList<'_, W>) {
    match tree {
        Tree::Leaf => {}
        Tree::Node(left, line, _, right) => {
            show(left.as_ref(), list);
            list.entry(line.as_ref());
            show(right.as_ref(), list);
        }
    }
}

/// How high a tree is said to be.
fn height(tree: &Tree) -> u32 {
    match tree {
        Tree::Leaf => 0,
        Tree::Node(_, _, height, _) => *height,
    }
}

/// A line between two trees, of this height.
fn kept(
    alloc: Global,
    left: Arc<Tree>,
    line: Arc<Line>,
    height: u32,
    right: Arc<Tree>,
) -> Result<Arc<Tree>, AllocError>
    ensures { IfOk result (λ t. items t.value ≡ items left.value ++ line.value ∷ items right.value) }
{
    Ok(Arc::new(alloc, Tree::Node(left, line, height, right))?)
}

/// A line between two trees.
fn node(
    alloc: Global,
    left: Arc<Tree>,
    line: Arc<Line>,
    right: Arc<Tree>,
) -> Result<Arc<Tree>, AllocError>
    ensures { IfOk result (λ t. items t.value ≡ items left.value ++ line.value ∷ items right.value) }
{
    let higher = height(left.as_ref()).max(height(right.as_ref()));
    // Saturating, since the height is a hint alone.
    kept(alloc, left, line, higher.saturating_add(1), right)
}

/// A line between two trees, of which one may be higher than the other by two.
fn join(
    alloc: Global,
    left: Arc<Tree>,
    line: Arc<Line>,
    right: Arc<Tree>,
) -> Result<Arc<Tree>, AllocError>
    ensures { IfOk result (λ t. items t.value ≡ items left.value ++ line.value ∷ items right.value) }
{
    let (left_height, right_height) = (height(left.as_ref()), height(right.as_ref()));
    // Higher by two at most, after one more line on one side: one turn balances it.
    if left_height > right_height.saturating_add(1) {
        lean_right(alloc, left, line, right)
    } else if right_height > left_height.saturating_add(1) {
        lean_left(alloc, left, line, right)
    } else {
        node(alloc, left, line, right)
    }
}

/// A line between two trees, of which the left one is too high.
fn lean_right(
    alloc: Global,
    left: Arc<Tree>,
    line: Arc<Line>,
    right: Arc<Tree>,
) -> Result<Arc<Tree>, AllocError>
    ensures { IfOk result (λ t. items t.value ≡ items left.value ++ line.value ∷ items right.value) }
{
    let Tree::Node(outer, first, _, inner) = left.as_ref() else {
        // Never so, since a tree that is too high has a line. No proof needs that: the lines would be the same.
        return node(alloc, left, line, right);
    };
    // The outer part is no lower: a single turn brings it up, and leaves the inner one at its depth.
    if height(outer.as_ref()) >= height(inner.as_ref()) {
        let right = node(alloc, inner.clone()?, line, right)?;
        return node(alloc, outer.clone()?, first.clone()?, right);
    }
    // The inner part is the high one: moved as a whole it would make the other side too high.
    let Tree::Node(before, second, _, behind) = inner.as_ref() else {
        return node(alloc, left.clone()?, line, right);
    };
    let right = node(alloc, behind.clone()?, line, right)?;
    let left = node(alloc, outer.clone()?, first.clone()?, before.clone()?)?;
    node(alloc, left, second.clone()?, right)
}

/// A line between two trees, of which the right one is too high.
fn lean_left(
    alloc: Global,
    left: Arc<Tree>,
    line: Arc<Line>,
    right: Arc<Tree>,
) -> Result<Arc<Tree>, AllocError>
    ensures { IfOk result (λ t. items t.value ≡ items left.value ++ line.value ∷ items right.value) }
{
    let Tree::Node(inner, last, _, outer) = right.as_ref() else {
        return node(alloc, left, line, right);
    };
    if height(outer.as_ref()) >= height(inner.as_ref()) {
        let left = node(alloc, left, line, inner.clone()?)?;
        return node(alloc, left, last.clone()?, outer.clone()?);
    }
    // The inner part is the high one: moved as a whole it would make the other side too high.
    let Tree::Node(before, second, _, behind) = inner.as_ref() else {
        return node(alloc, left, line, right.clone()?);
    };
    let left = node(alloc, left, line, before.clone()?)?;
    let right = node(alloc, behind.clone()?, last.clone()?, outer.clone()?)?;
    node(alloc, left, second.clone()?, right)
}
