//! The lines of a stock or an account.

ghost use Rattle.std.specs.Prelude.{◌≡◌, ◌≤◌, ◌^◌, [], None, option_copied, IfOk, OnOk, OnErr, MatchOption};
ghost use Rattle.base.specs.declared.entity.Kind.TheVariants.{Order};
ghost use Rattle.trade.specs.Lines.{line_of, with_line, with_line_phase, total};
ghost use Rattle.trade.specs.LineTree.{items};
ghost use Rattle.trade.specs.Holding.{held_by};
ghost use Rattle.trade.specs.Sound.{AreLinesSound};

use crate::line_tree::{self, Tree};
use crate::{Line, LinePhase};
use base::{Entity, Number};
use std::alloc::{AllocError, Global};
use std::fmt;
use std::marker::Model;
use std::sync::Arc;

/// Lines of orders, one an order, in order of the orders' keys: contracts see their list.
///
/// They stand in a balanced tree whose parts are shared among copies: a copy allocates nothing, and what changes a line
/// of `n` makes about log2 `n` parts anew.
#[derive(Drop)]
pub struct Lines {
    alloc: Global,
    // `None` for no line: a leaf would have to be allocated for each opening state.
    root: Option<Arc<Tree>>,
}

impl Model for Lines {
    ghost use Rattle.std.specs.Prelude.{List};
    ghost use Rattle.trade.specs.Lines.{Line};
    ghost use Rattle.trade.specs.LineTree.{lines_in};
    ghost use Rattle.trade.specs.Sound.{AreLinesSound};

    ghost Value = { List Line };

    ghost view = { lines_in };

    ghost invariant = { λ l. AreLinesSound (lines_in l) };
}

impl Lines {
    /// No line yet.
    #[tactic(auto, using(crate::proofs::LineLists::staying_sound))]
    pub fn new(alloc: Global) -> Lines
        ensures { result ≡ [] }
    {
        Lines { alloc, root: None }
    }

    /// Copies of all lines, in order.
    ///
    /// # Errors
    /// If an allocation fails.
    pub fn to_vec(&self) -> Result<Vec<Line>, AllocError>
        ensures value { IfOk result (λ lines. lines.items ≡ self.now) }
        ensures sound { AreLinesSound self.now }
    {
        // Copies: other states may share these lines, so none can be moved out.
        let mut lines = Vec::new(self.alloc);
        if let Some(root) = &self.root {
            line_tree::push_all(self.alloc, root.as_ref(), &mut lines)?;
        }
        Ok(lines)
    }

    /// The line of an order, if it has one.
    pub fn find(&self, order: &Entity) -> Option<&Line>
        ensures { option_copied result ≡ line_of order.now self.now }
    {
        match &self.root {
            Some(root) => line_tree::find(root.as_ref(), order),
            None => None,
        }
    }

    /// How much is held for an order, if something is.
    pub fn held_for(&self, order: &Entity) -> Option<Number>
        ensures { result ≡ held_by (line_of order.now self.now) }
    {
        let line = self.find(order)?;
        matches!(line.phase(), LinePhase::Held).then_some(line.number())
    }

    /// Adds a line, in its place, for an order that has none.
    ///
    /// # Errors
    /// If an allocation fails; the lines are as they were then.
    #[tactic(auto, using(crate::proofs::LineLists::staying_sound))]
    pub fn insert(
        &mut self,
        order: Entity,
        number: Number,
        phase: LinePhase,
    ) -> Result<(), AllocError>
        requires order { order.kind ≡ Order }
        requires new { line_of order self.old ≡ None }
        ensures ok { OnOk result (self.new ≡ with_line (record { order = order; n = number; phase = phase }) self.old) }
        ensures err { OnErr result (self.new ≡ self.old) }
    {
        let line = Arc::new(self.alloc, Line::new(order, number, phase))?;
        let root = self.root_with(line)?;
        // Set last: where an allocation fails, the old tree is whole still.
        self.root = Some(root);
        Ok(())
    }

    /// The tree of these lines and one more.
    fn root_with(&self, line: Arc<Line>) -> Result<Arc<Tree>, AllocError>
        requires { line.value.order.kind ≡ Order }
        ensures { IfOk result (λ t. items t.value ≡ with_line line.value self.now) }
    {
        match &self.root {
            Some(root) => line_tree::with_line(self.alloc, root, line),
            None => line_tree::of_one(self.alloc, line),
        }
    }

    /// The order's line is in this phase from now on, if it has one.
    ///
    /// # Errors
    /// If an allocation fails; the lines are as they were then.
    #[tactic(auto, using(crate::proofs::LineLists::staying_sound))]
    pub fn set_phase(&mut self, order: &Entity, phase: LinePhase) -> Result<(), AllocError>
        ensures ok { OnOk result (self.new ≡ with_line_phase order.now phase self.old) }
        ensures err { OnErr result (self.new ≡ self.old) }
    {
        if let Some(root) = &self.root {
            let root = line_tree::with_phase(self.alloc, root, order, phase)?;
            self.root = Some(root);
        }
        Ok(())
    }

    /// How much the lines in a phase are for, together; `None` from 2^64 on.
    pub fn total(&self, phase: LinePhase) -> Option<u64>
        ensures total { MatchOption result (2 ^ 64 ≤ total phase self.now) (λ sum. sum ≡ total phase self.now) }
        ensures sound { AreLinesSound self.now }
    {
        match &self.root {
            Some(root) => line_tree::total(root.as_ref(), phase),
            None => Some(0),
        }
    }

    /// Equal lines, which share their parts with these. It allocates nothing.
    ///
    /// # Errors
    /// Where the parts have too many owners to count: 2^63 - 1.
    pub fn copy(&self) -> Result<Lines, AllocError>
        ensures { IfOk result (λ l. l ≡ self.now) }
    {
        // A state is copied at each step: as lists, lines took 12.1 ms an order at 10,000 orders of one stock and one
        // account.
        let root = match &self.root {
            // The root alone is shared: with it all that is below.
            Some(root) => Some(root.clone()?),
            None => None,
        };
        Ok(Lines {
            alloc: self.alloc,
            root,
        })
    }
}

/// Lines are shown as a list.
impl fmt::Debug for Lines {
    fn fmt<W: fmt::Write>(&self, f: &mut fmt::Formatter<W>) -> fmt::Result {
        let mut list = f.debug_list();
        if let Some(root) = &self.root {
            line_tree::show(root.as_ref(), &mut list);
        }
        list.finish()
    }
}
