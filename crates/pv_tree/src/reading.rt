// Nodes that cases are read into.
ghost use Rattle.std.specs.Prelude.{◌≡◌, ◌<◌, ◌≤◌, true, length, IfOk, IfSome, OnOk};
ghost use Rattle.pv_base.specs.Assignment.{precedes};
ghost use Rattle.pv_base.specs.Polyvalue.{NamesOnlyAfter};
ghost use Rattle.pv_base.specs.declared.limits.TheConstants.{HELD_NAMES};
ghost use Rattle.pv_tree.specs.Meanings.{cases_at, IsRead, Keeps};
ghost use Rattle.pv_tree.specs.Nodes.{AreBelow};

use crate::nodes::{Node, Nodes};
use pv_base::{Case, Exact, HELD_NAMES, Literal, NoMemory, TxnId};

impl<V: Exact> Nodes<V> {
    /// The number of the node of the first cases, each behind the literals of the way, and the rest behind these; or `None` where these aren't canonical. The
    /// nodes that this wants are made. Then the way is as it was. Takes time in proportion to the literals, and to the cases times at most the
    /// nodes that are made.
    pub fn read<'a>(
        &mut self,
        cases: &'a [Case<V>],
        way: &mut Vec<Literal>,
    ) -> Result<Option<(u32, &'a [Case<V>])>, NoMemory>
        requires { length way.old.items ≤ HELD_NAMES }
        ensures kept { OnOk result (Keeps self.old self.new) }
        ensures read { IfOk result (λ read. IfSome read (λ found. IsRead way.old.items cases.now self.new found.0 found.1.now)) }
        ensures way { IfOk result (λ read. IfSome read (λ found. way.new.items ≡ way.old.items)) }
    {
        let Some((case, rest)) = cases.split_first() else {
            return Ok(None);
        };
        let Some(literal) = case.when.get(way.len()) else {
            if !is_way(&case.when, way) {
                return Ok(None);
            }
            let leaf = self.leaf(case.value)?;
            return Ok(Some((leaf, rest)));
        };
        let txn = literal.txn;
        if way.len() == HELD_NAMES as usize {
            return Ok(None);
        }
        way.push(Literal {
            txn,
            commits: false,
        })?;
        let Some((aborted, others)) = self.read(cases, way)? else {
            return Ok(None);
        };
        way.pop();
        way.push(Literal { txn, commits: true })?;
        let Some((committed, others)) = self.read(others, way)? else {
            return Ok(None);
        };
        way.pop();
        if !self.are_sides(txn, aborted, committed) {
            return Ok(None);
        }
        let test = self.tested(txn, aborted, committed)?;
        Ok(Some((test, others)))
    }

    // Whether these may be the sides of a test of the transaction.
    fn are_sides(&self, txn: TxnId, aborted: u32, committed: u32) -> bool
        requires aborted_there { aborted < length self.now }
        requires committed_there { committed < length self.now }
        ensures { result ≡ true → AreBelow self.now (length self.now) txn aborted committed }
    {
        // Reading the nodes shows the proof that both sides are canonical.
        let _ = &self.list;
        if !self.is_after(txn, aborted) {
            return false;
        }
        if !self.is_after(txn, committed) {
            return false;
        }
        !self.same(aborted, committed)
    }

    // Whether the node names only later transactions.
    fn is_after(&self, txn: TxnId, number: u32) -> bool
        requires { number < length self.now }
        ensures { result ≡ true → NamesOnlyAfter txn (cases_at self.now number) }
    {
        match self.node(number) {
            Node::Leaf(_) => true,
            Node::Test(tested, _, _) => is_before(txn, tested),
        }
    }
}

// Whether the first of two transactions is the earlier one.
fn is_before(txn: TxnId, other: TxnId) -> bool
    ensures { result ≡ precedes txn other }
{
    txn < other
}

// Whether these are the literals of the way.
fn is_way(when: &[Literal], way: &[Literal]) -> bool
    ensures { result ≡ true → when.now ≡ way.now }
{
    match when {
        [] => match way {
            [] => true,
            [..] => false,
        },
        [literal, rest @ ..] => match way {
            [] => false,
            [other, others @ ..] => {
                if !is_same(literal, other) {
                    return false;
                }
                is_way(rest, others)
            }
        },
    }
}

// Whether they are one literal.
fn is_same(literal: &Literal, other: &Literal) -> bool
    ensures { result ≡ true → literal.now ≡ other.now }
{
    literal == other
}
