//! Whether two schemas are the same. It may miss that they are where a default or a check has a number with a point.

ghost use Rattle.std.specs.Prelude.{◌≡◌, IsTrue};

use sqlite_items::Items;
use sqlite_schema::code::{Op, Terms};
use sqlite_schema::schema::{Column, Index, Reference, Schema, Stamps, Table};
use sqlite_value::keys::Order;
use sqlite_value::value::{Bytes, Value};

/// A test that finds equal values.
pub trait Same {
    /// Whether the two are known to be equal.
    fn same(&self, other: &Self) -> bool
        ensures { IsTrue result → self.now ≡ other.now };
}

fn all_same<T: Same>(ones: &[T], others: &[T]) -> bool
    ensures { IsTrue result → ones.now ≡ others.now }
{
    // `zip` ends with the shorter of the two.
    if ones.len() != others.len() {
        return false;
    }
    for (one, other) in ones.iter().zip(others) {
        if !one.same(other) {
            return false;
        }
    }
    true
}

impl Same for usize {
    fn same(&self, other: &usize) -> bool {
        self == other
    }
}

impl Same for Order {
    fn same(&self, other: &Order) -> bool {
        self == other
    }
}

impl Same for Bytes {
    fn same(&self, other: &Bytes) -> bool {
        self.as_slice() == other.as_slice()
    }
}

impl<T: Same> Same for Items<T> {
    fn same(&self, other: &Items<T>) -> bool {
        all_same(self.as_slice(), other.as_slice())
    }
}

impl Same for Value {
    fn same(&self, other: &Value) -> bool {
        match (self, other) {
            (Value::Null, Value::Null) => true,
            (Value::Int(one), Value::Int(other)) => one == other,
            (Value::Text(one), Value::Text(other)) => one.same(other),
            // Reals and blobs count as different. No table here has them; at worst a file is refused.
            _ => false,
        }
    }
}

impl Same for Op {
    fn same(&self, other: &Op) -> bool {
        match (self, other) {
            (Op::Literal(one), Op::Literal(other)) => one.same(other),
            (Op::Column(slot, at), Op::Column(other_slot, other_at)) => {
                slot == other_slot && at == other_at
            }
            (Op::Binary(op, left, right), Op::Binary(other_op, other_left, other_right)) => {
                op == other_op && left == other_left && right == other_right
            }
            // Our checks need no other operation. Others count as different: at worst a file is refused.
            _ => false,
        }
    }
}

impl Same for Terms {
    fn same(&self, other: &Terms) -> bool {
        self.nodes.same(&other.nodes) && self.roots.same(&other.roots)
    }
}

impl Same for Column {
    fn same(&self, other: &Column) -> bool {
        self.name.same(&other.name)
            && self.kind == other.kind
            && self.is_strict == other.is_strict
            && self.not_null == other.not_null
            && self.default.same(&other.default)
            && self.collation == other.collation
    }
}

impl Same for Reference {
    fn same(&self, other: &Reference) -> bool {
        self.columns.same(&other.columns)
            && self.parent.same(&other.parent)
            && self.parent_columns.same(&other.parent_columns)
            && self.on_delete == other.on_delete
            && self.on_update == other.on_update
            && self.is_deferred == other.is_deferred
    }
}

impl Same for Stamps {
    fn same(&self, other: &Stamps) -> bool {
        self.places.same(&other.places)
            && self.terms.same(&other.terms)
            && self.formats.same(&other.formats)
    }
}

impl Same for Index {
    fn same(&self, other: &Index) -> bool {
        self.name.same(&other.name)
            && self.tree == other.tree
            && self.table == other.table
            && self.columns.same(&other.columns)
            && self.order == other.order
            && self.is_unique == other.is_unique
    }
}

impl Same for Table {
    fn same(&self, other: &Table) -> bool {
        self.name.same(&other.name)
            && self.tree == other.tree
            && self.columns.same(&other.columns)
            && self.key == other.key
            && self.primary.same(&other.primary)
            && self.uniques.same(&other.uniques)
            && self.orders.same(&other.orders)
            && self.checks.same(&other.checks)
            && self.references.same(&other.references)
            && self.computed.same(&other.computed)
            && self.stamps.same(&other.stamps)
            && self.is_counted == other.is_counted
    }
}

/// Whether the two schemas are known to be the same; one with a view isn't.
pub fn same_schema(one: &Schema, other: &Schema) -> bool
    ensures { IsTrue result → one.now ≡ other.now }
{
    one.tables.same(&other.tables)
        && one.indexes.same(&other.indexes)
        // None of our schemas has a view, so views needn't be compared.
        && one.views.is_empty()
        && other.views.is_empty()
}
