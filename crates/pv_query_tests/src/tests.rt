// Worked answers: replies that depend on two outcomes, and money that moves where T commits.
ghost use Rattle.std.specs.Prelude.{◌≡◌, length};

use pv_ast::Reply;
use pv_base::{NoMemory, SiteId, TxnId};
use pv_query::*;
use pv_tree::Poly;
use std::alloc::Global;
use std::test::Fail;

const T: TxnId = TxnId {
    site: SiteId(0),
    epoch: 1,
    number: 0,
};

const U: TxnId = TxnId {
    site: SiteId(0),
    epoch: 1,
    number: 1,
};

const FIFTY: Reply = Reply::Value(50);

const SIXTY: Reply = Reply::Value(60);

// the first value where T doesn't commit, and the second one where it does
fn either(alloc: Global, values: &[i64]) -> Result<Poly<i64>, NoMemory>
    requires { length values.now ≡ 2 }
{
    Poly::from_table(alloc, &[T], values)
}

#[test]
fn a_reply_of_two_cases_is_possible_once(rt: HostRuntime) -> Result<(), Fail> {
    let alloc = rt.alloc();
    let reply = Poly::from_table(alloc, &[T, U], &[FIFTY, SIXTY, SIXTY, FIFTY])?;
    let replies = possible(alloc, &reply)?;
    assert!(rt; replies.as_slice() == [FIFTY, SIXTY].as_slice());
    assert!(rt; certain(&reply).is_none());
    Ok(())
}

#[test]
fn money_that_moves_has_one_sum(rt: HostRuntime) -> Result<(), Fail> {
    let alloc = rt.alloc();
    let values = [either(alloc, &[50, 60])?, either(alloc, &[70, 60])?];
    let found = sums(alloc, &values)?;
    assert!(rt; found.as_slice() == [120].as_slice());
    Ok(())
}
