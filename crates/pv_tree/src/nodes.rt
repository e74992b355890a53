// The nodes of decision trees over ascending transactions, in one list (Bryant, 1986). A node stands for its cases.
ghost use Rattle.std.specs.Prelude.{◌≡◌, ◌≤◌, ◌<◌, ◌+◌, true, false, [], ◌∷◌, ◌++◌, length, IfOk, IfSome, OnOk};
ghost use Rattle.pv_base.specs.Polyvalue.{under, NamesOnlyAfter, IsCanonical};
ghost use Rattle.pv_tree.specs.Meanings.{cases_at, IsAt, Keeps, Chooses};

use pv_base::{Exact, NoMemory, TxnId};
use std::alloc::Global;
use std::marker::Model;

/// What stands at the top of a tree.
#[derive(Clone, Copy, Debug)]
pub enum Node<V> {
    /// The value, whatever else commits.
    Leaf(V),
    /// A test of the transaction: the number of the node where it doesn't commit, and of that where it does.
    Test(TxnId, u32, u32),
}

/// A list of nodes. Each stands for a decision tree in its smallest form: both sides of a test are nodes before it, transactions ascend on each
/// way down, and no test has equal sides.
#[derive(Debug, Drop)]
pub struct Nodes<V> {
    pub(crate) list: Vec<Node<V>>,
}

impl<V> Model for Nodes<V> {
    ghost use Rattle.std.specs.Prelude.{List, []};
    ghost use Rattle.pv_base.specs.Polyvalue as model;

    ghost Value = { List (List (model.Case V)) };

    ghost use Rattle.pv_tree.specs.Nodes.{meanings_after, AreNodes};

    ghost view = { λ nodes. meanings_after [] nodes.list.items };

    ghost invariant = { λ nodes. AreNodes nodes.list.items };
}

// Among how many nodes a node is sought before it is made: a leaf among the first ones, and a test among the first ones behind both its sides. Where
// it stands behind these it may be made again: seeking it among all would cost more than it saves.
const SOUGHT: u32 = 32;

impl<V: Exact> Nodes<V> {
    ghost use Rattle.pv_tree.specs.Nodes.{meaning_of, AreBelow, IsNext, IsNodeAt};

    /// No node.
    pub fn new(alloc: Global) -> Nodes<V>
        ensures { result ≡ [] }
    {
        Nodes {
            list: Vec::new(alloc),
        }
    }

    /// How many nodes there are.
    pub fn len(&self) -> u32
        ensures { result ≡ length self.now }
    {
        self.list.len() as u32
    }

    /// The node with this number.
    pub fn node(&self, number: u32) -> Node<V>
        requires { number < length self.now }
        ensures node { IsNodeAt self.now number result }
        ensures canonical { IsCanonical (cases_at self.now number) }
    {
        self.list[number as usize]
    }

    // Appends the node, and tells its number.
    fn push(&mut self, node: Node<V>) -> Result<u32, NoMemory>
        requires { IsNext self.old node }
        ensures kept { OnOk result (Keeps self.old self.new) }
        ensures new { IfOk result (λ number. IsAt self.new number (meaning_of self.old node)) }
    {
        let number = self.len();
        if number == u32::MAX {
            return Err(NoMemory);
        }
        self.list.push(node)?;
        Ok(number)
    }

    /// The same nodes up to this one, which is then the last.
    pub fn up_to(mut self, number: u32) -> Nodes<V>
        requires { number < length self }
        ensures length { length result ≡ number + 1 }
        ensures kept { cases_at result number ≡ cases_at self number }
    {
        self.list.truncate(number as usize + 1);
        self
    }

    /// The number of a leaf of this value, which is made if none is found.
    pub fn leaf(&mut self, value: V) -> Result<u32, NoMemory>
        ensures kept { OnOk result (Keeps self.old self.new) }
        ensures leaf { IfOk result (λ number. IsAt self.new number (record { when = []; value = value } ∷ [])) }
    {
        if let Some(number) = self.leaf_of(value) {
            return Ok(number);
        }
        self.push(Node::Leaf(value))
    }

    // The number of a leaf of this value, if there is one among the first nodes.
    fn leaf_of(&self, value: V) -> Option<u32>
        ensures { IfSome result (λ number. IsAt self.now number (record { when = []; value = value } ∷ [])) }
    {
        for number in 0..self.len().min(SOUGHT) {
            if self.is_leaf(number, value) {
                return Some(number);
            }
        }
        None
    }

    // Whether the node is a leaf of this value.
    fn is_leaf(&self, number: u32, value: V) -> bool
        requires { number < length self.now }
        ensures { result ≡ true → cases_at self.now number ≡ record { when = []; value = value } ∷ [] }
    {
        match self.node(number) {
            Node::Leaf(found) => found == value,
            Node::Test(..) => false,
        }
    }

    /// The number of the node that tests this transaction first, which is made if none is found, unless both sides are equal: then it is that of
    /// a side.
    pub fn test(&mut self, txn: TxnId, aborted: u32, committed: u32) -> Result<u32, NoMemory>
        requires aborted_there { aborted < length self.old }
        requires committed_there { committed < length self.old }
        requires aborted_after { NamesOnlyAfter txn (cases_at self.old aborted) }
        requires committed_after { NamesOnlyAfter txn (cases_at self.old committed) }
        ensures kept { OnOk result (Keeps self.old self.new) }
        ensures test { IfOk result (Chooses txn (cases_at self.old aborted) (cases_at self.old committed) self.new) }
    {
        // Reading the nodes shows the proof that both sides are canonical.
        let _ = &self.list;
        if self.same(aborted, committed) {
            return Ok(aborted);
        }
        self.tested(txn, aborted, committed)
    }

    /// The number of the node that tests this transaction first, which is made if none is found. Its sides aren't equal.
    pub fn tested(&mut self, txn: TxnId, aborted: u32, committed: u32) -> Result<u32, NoMemory>
        requires { AreBelow self.old (length self.old) txn aborted committed }
        ensures kept { OnOk result (Keeps self.old self.new) }
        ensures test { IfOk result (λ number. IsAt self.new number (under txn false (cases_at self.old aborted) ++ under txn true (cases_at self.old committed))) }
    {
        if let Some(number) = self.test_of(txn, aborted, committed) {
            return Ok(number);
        }
        self.push(Node::Test(txn, aborted, committed))
    }

    // The number of the test of this transaction with these sides, if there is one among the first nodes behind both.
    fn test_of(&self, txn: TxnId, aborted: u32, committed: u32) -> Option<u32>
        ensures { IfSome result (λ number. IsAt self.now number (under txn false (cases_at self.now aborted) ++ under txn true (cases_at self.now committed))) }
    {
        let behind = aborted.max(committed);
        for number in behind..self.len().min(behind.saturating_add(SOUGHT)) {
            if self.is_test(number, txn, aborted, committed) {
                return Some(number);
            }
        }
        None
    }

    // Whether the node is a test of this transaction with these sides.
    fn is_test(&self, number: u32, txn: TxnId, aborted: u32, committed: u32) -> bool
        requires { number < length self.now }
        ensures { result ≡ true → cases_at self.now number ≡ under txn false (cases_at self.now aborted) ++ under txn true (cases_at self.now committed) }
    {
        match self.node(number) {
            Node::Leaf(_) => false,
            Node::Test(tested, front, back) => tested == txn
                && front == aborted
                && back == committed,
        }
    }

    /// Whether both nodes have equal cases, which they do exactly where they have the same value at every assignment.
    pub fn same(&self, number: u32, other: u32) -> bool
        requires there { number < length self.now }
        requires other_there { other < length self.now }
        ensures equal { result ≡ true → cases_at self.now number ≡ cases_at self.now other }
        ensures unequal { cases_at self.now number ≡ cases_at self.now other → result ≡ true }
    {
        if number == other {
            return true;
        }
        match (self.node(number), self.node(other)) {
            (Node::Leaf(value), Node::Leaf(second)) => value == second,
            (Node::Test(txn, aborted, committed), Node::Test(second, front, back)) => {
                txn == second && self.same(aborted, front) && self.same(committed, back)
            }
            _ => false,
        }
    }
}
