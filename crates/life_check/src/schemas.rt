//! Comparing the schemas of two databases: columns, keys, checks, references, indexes, and the numbers of their trees.

ghost use Rattle.std.specs.Prelude.{◌≡◌, ◌⊎◌, ◌<◌, ◌↔◌, [], map, IsTrue};
ghost use Rattle.sqlite_schema.specs.Code.{IsLoanOf, term_to, term_in};
ghost use Rattle.sqlite_sql.specs.Syntax.{node_term};
ghost use Rattle.life_check.specs.Schemas.{HaveSameColumns, HaveSameRules};

use sqlite_items::Items;
use sqlite_schema::code::{Op, Terms, lend_value};
use sqlite_schema::schema::{Column, Index, Reference, Schema, Stamps, Table};
use sqlite_sql::expr::Node;
use sqlite_value::keys::Order;
use sqlite_value::order;
use sqlite_value::value::{Bytes, Value, ValueRef};

/// Equality of a schema's parts, whose types have no `==`.
trait Same {
    /// Whether the two are equal. This is exact: if the answer is false, they differ.
    fn is_same(&self, other: &Self) -> bool
        ensures { IsTrue result ↔ (self.now ≡ other.now) };
}

fn all_same<T: Same>(mut left: &[T], mut right: &[T]) -> bool
    ensures { IsTrue result ↔ (left.entry.now ≡ right.entry.now) }
{
    while let [first, more @ ..] = left {
        let [other, others @ ..] = right else {
            return false;
        };
        if !first.is_same(other) {
            return false;
        }
        left = more;
        right = others;
    }
    right.is_empty()
}

impl<T: Same> Same for Items<T> {
    fn is_same(&self, other: &Items<T>) -> bool {
        all_same(self.as_slice(), other.as_slice())
    }
}

impl Same for usize {
    fn is_same(&self, other: &usize) -> bool {
        *self == *other
    }
}

impl Same for Order {
    fn is_same(&self, other: &Order) -> bool {
        self.digits == other.digits
    }
}

impl Same for Bytes {
    fn is_same(&self, other: &Bytes) -> bool {
        self.as_slice() == other.as_slice()
    }
}

impl Same for Value {
    fn is_same(&self, other: &Value) -> bool {
        order::is_same(lend_value(self), lend_value(other))
    }
}

/// The node with its literal borrowed instead of owned, so that two nodes can be compared without a copy.
fn lend_node(op: &Op) -> Node<'_>
    ensures { IsLoanOf op.now result }
{
    match op {
        Op::Literal(value) => Node::Literal(lend_value(value)),
        Op::Column(slot, at) => Node::Column(*slot, *at),
        Op::Unary(op, a) => Node::Unary(*op, *a),
        Op::Binary(op, a, b) => Node::Binary(*op, *a, *b),
        Op::Case(test, a, b) => Node::Case(*test, *a, *b),
    }
}

/// The node at an index, and the depth to which its operands are read. At depth 0, or without a node there, it is NULL.
fn node_at(ops: &[Op], depth: usize, at: usize) -> (Node<'_>, usize)
    ensures term { term_to ops.now depth at ≡ node_term (term_to ops.now result.1) result.0 }
    ensures falls { (result.1 < depth) ⊎ (result.0 ≡ Node.Literal ValueRef.Null) }
{
    if depth == 0 || at >= ops.len() {
        return (Node::Literal(ValueRef::Null), 0);
    }
    (lend_node(&ops[at]), depth - 1)
}

/// Compares the expression at the index `x` on the left with the one at `y` on the right. Equal expressions may be
/// stored in different nodes or in another order, so indices are never compared.
fn is_same_term(
    left: &[Op],
    left_depth: usize,
    x: usize,
    right: &[Op],
    right_depth: usize,
    y: usize,
) -> bool
    ensures { IsTrue result ↔ (term_to left.now left_depth x ≡ term_to right.now right_depth y) }
{
    let (node, d) = node_at(left, left_depth, x);
    let (other, e) = node_at(right, right_depth, y);
    match (node, other) {
        (Node::Literal(a), Node::Literal(b)) => order::is_same(a, b),
        (Node::Column(slot, at), Node::Column(from, place)) => slot == from && at == place,
        (Node::Unary(op, a), Node::Unary(by, b)) => op == by
            && is_same_term(left, d, a, right, e, b),
        (Node::Binary(op, a, b), Node::Binary(by, u, v)) => op == by
            && is_same_term(left, d, a, right, e, u)
            && is_same_term(left, d, b, right, e, v),
        (Node::Case(p, a, b), Node::Case(q, u, v)) => is_same_term(left, d, p, right, e, q)
            && is_same_term(left, d, a, right, e, u)
            && is_same_term(left, d, b, right, e, v),
        _ => false,
    }
}

/// Compares two lists of expressions, each given by its nodes and the indices of its roots.
fn has_same_terms(left: &[Op], mut roots: &[usize], right: &[Op], mut places: &[usize]) -> bool
    ensures { IsTrue result
        ↔ (map (term_in left.now) roots.entry.now ≡ map (term_in right.now) places.entry.now) }
{
    while let [x, more @ ..] = roots {
        let [y, others @ ..] = places else {
            return false;
        };
        if !is_same_term(left, left.len(), *x, right, right.len(), *y) {
            return false;
        }
        roots = more;
        places = others;
    }
    places.is_empty()
}

impl Same for Terms {
    fn is_same(&self, other: &Terms) -> bool {
        has_same_terms(
            self.nodes.as_slice(),
            self.roots.as_slice(),
            other.nodes.as_slice(),
            other.roots.as_slice(),
        )
    }
}

impl Same for Column {
    fn is_same(&self, other: &Column) -> bool {
        self.name.is_same(&other.name)
            && self.kind == other.kind
            && self.is_strict == other.is_strict
            && self.not_null == other.not_null
            && self.default.is_same(&other.default)
            && self.collation == other.collation
    }
}

impl Same for Reference {
    fn is_same(&self, other: &Reference) -> bool {
        self.columns.is_same(&other.columns)
            && self.parent.is_same(&other.parent)
            && self.parent_columns.is_same(&other.parent_columns)
            && self.on_delete == other.on_delete
            && self.on_update == other.on_update
            && self.is_deferred == other.is_deferred
    }
}

impl Same for Stamps {
    fn is_same(&self, other: &Stamps) -> bool {
        self.places.is_same(&other.places)
            && self.terms.is_same(&other.terms)
            && self.formats.is_same(&other.formats)
    }
}

/// Compares the columns of two tables, and their keys.
fn has_same_columns(left: &Table, right: &Table) -> bool
    ensures { IsTrue result ↔ HaveSameColumns left.now right.now }
{
    left.name.is_same(&right.name)
        && left.tree == right.tree
        && left.columns.is_same(&right.columns)
        && left.key == right.key
        && left.primary.is_same(&right.primary)
        && left.is_counted == right.is_counted
}

/// Compares the constraints of two tables, and their defaults that are not literals.
fn has_same_rules(left: &Table, right: &Table) -> bool
    ensures { IsTrue result ↔ HaveSameRules left.now right.now }
{
    left.uniques.is_same(&right.uniques)
        && left.orders.is_same(&right.orders)
        && left.checks.is_same(&right.checks)
        && left.references.is_same(&right.references)
        && left.computed.is_same(&right.computed)
        && left.stamps.is_same(&right.stamps)
}

impl Same for Table {
    fn is_same(&self, other: &Table) -> bool {
        has_same_columns(self, other) && has_same_rules(self, other)
    }
}

impl Same for Index {
    fn is_same(&self, other: &Index) -> bool {
        self.name.is_same(&other.name)
            && self.tree == other.tree
            && self.table == other.table
            && self.columns.is_same(&other.columns)
            && self.order == other.order
            && self.is_unique == other.is_unique
    }
}

/// Whether the two schemas are equal and have no views. The kit stores triggers, and tables that it does not
/// understand, among the views. This is exact: if the result is false, the schemas differ or have views.
pub fn is_same_schema(left: &Schema, right: &Schema) -> bool
    ensures { IsTrue result ↔ ((left.now ≡ right.now) × (left.now.views ≡ [])) }
{
    left.tables.is_same(&right.tables)
        && left.indexes.is_same(&right.indexes)
        && left.views.is_empty()
        && right.views.is_empty()
}
