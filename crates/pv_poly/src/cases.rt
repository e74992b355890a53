// The cases that a tree stands for, read and written.
ghost use Rattle.std.specs.Prelude.{◌≡◌, ◌++◌, drop, IfOk, OnOk};
ghost use Rattle.std.specs.List.{position_or_len};
ghost use Rattle.pv_base.specs.Polyvalue.{IsCanonical};
ghost use Rattle.pv_cases.specs.CasesAt.{asks_commit, beyond, under_all};

use crate::tree::{Node, Tree};
use pv_base::{Case, Exact, Literal, NoMemory};
use std::alloc::Global;

impl<V: Exact> Tree<V> {
    /// The tree of these cases, which are canonical.
    pub fn read(alloc: Global, cases: &[Case<V>]) -> Result<Tree<V>, NoMemory>
        requires { IsCanonical cases.now }
        ensures { IfOk result (λ tree. tree ≡ cases.now) }
    {
        Tree::read_at(alloc, cases, 0)
    }

    // The tree of these cases, where so many of the first literals of each are those of the way down to it.
    fn read_at(alloc: Global, cases: &[Case<V>], depth: usize) -> Result<Tree<V>, NoMemory>
        requires { IsCanonical (beyond depth cases.now) }
        ensures { IfOk result (λ tree. tree ≡ beyond depth cases.now) }
    {
        let first = &cases[0];
        match first.when.get(depth) {
            None => Ok(Tree::sure(first.value)),
            Some(literal) => {
                let (aborted, committed) = cases.split_at(aborted_len(cases, depth));
                let aborted = Tree::read_at(alloc, aborted, depth + 1)?;
                let committed = Tree::read_at(alloc, committed, depth + 1)?;
                Ok(Tree {
                    node: Node::Test(
                        literal.txn,
                        Box::new(alloc, aborted)?,
                        Box::new(alloc, committed)?,
                    ),
                })
            }
        }
    }

    /// The cases: the leaves from left to right.
    pub fn cases(&self, alloc: Global) -> Result<Vec<Case<V>>, NoMemory>
        ensures { IfOk result (λ cases. cases.items ≡ self.now) }
    {
        // A tree that isn't sure has two cases at least.
        let mut cases = Vec::with_capacity(alloc, 2)?;
        self.push_cases(&mut Vec::new(alloc), &mut cases)?;
        Ok(cases)
    }

    // Appends the cases, each under the literals of the way down to here.
    fn push_cases(&self, way: &mut Vec<Literal>, cases: &mut Vec<Case<V>>) -> Result<(), NoMemory>
        ensures cases { OnOk result (cases.new.items ≡ cases.old.items ++ under_all way.old.items self.now) }
        ensures way { OnOk result (way.new.items ≡ way.old.items) }
    {
        match &self.node {
            Node::Sure(value) => {
                cases.push(Case {
                    when: way.clone()?,
                    value: *value,
                })?;
                Ok(())
            }
            Node::Test(txn, aborted, committed) => {
                way.push(Literal {
                    txn: *txn,
                    commits: false,
                })?;
                aborted.push_cases(way, cases)?;
                way.pop();
                way.push(Literal {
                    txn: *txn,
                    commits: true,
                })?;
                committed.push_cases(way, cases)?;
                way.pop();
                Ok(())
            }
        }
    }
}

// How many cases stand before the first whose literal at this depth asks for a commit.
fn aborted_len<V>(cases: &[Case<V>], depth: usize) -> usize
    ensures { result ≡ position_or_len (λ case. asks_commit (drop depth case.when)) cases.now }
{
    cases
        .iter()
        .position(|case| asks_commit_at(&case.when, depth))
        .unwrap_or(cases.len())
}

// Whether the literal at this depth asks for a commit.
fn asks_commit_at(literals: &[Literal], depth: usize) -> bool
    ensures { result ≡ asks_commit (drop depth literals.now) }
{
    match literals.get(depth) {
        Some(literal) => literal.commits,
        None => false,
    }
}
