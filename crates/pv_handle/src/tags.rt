// The tags of requests, each kept until the report of its request's number goes out.
ghost use Rattle.std.specs.Prelude.{◌≡◌, ◌<◌, ◌++◌};
ghost use Rattle.std.specs.VecDeque.{deque_capacity, deque_len};
ghost use Rattle.pv_embed.specs.Outputs.{out_of};
ghost use Rattle.pv_handle.specs.Tags.{LetsGo, begun_of, tag_of, tagged, tags_after};
ghost use Rattle.pv_handle.specs.Waiting.{left_after};

use crate::bytes::Waiting;
use crate::given::Given;
use pv_base::TxnId;
use pv_embed::{Note, Output};
use std::collections::VecDeque;

/// What a host has given to a request.
#[derive(Clone, Copy, Drop)]
pub(crate) struct Tag {
    /// The transaction that the request has begun.
    pub(crate) txn: TxnId,
    /// What the host has given.
    pub(crate) tag: u64,
}

/// Keeps the tag of a request that has begun this transaction, if it has begun one. There is room for it.
pub(crate) fn keep_tag(tags: &mut VecDeque<Tag>, begun: Option<TxnId>, tag: u64)
    requires { deque_len tags.old < deque_capacity tags.old }
    ensures { tags.new.items ≡ tags.old.items ++ tagged begun tag }
{
    if let Some(txn) = begun {
        tags.push_back_reserved(Tag { txn, tag });
    }
}

/// What was written waits no longer, and has its tag.
pub(crate) fn let_go(waiting: &mut Option<Waiting>, tags: &mut VecDeque<Tag>, given: Given) -> u64
    ensures left { waiting.new ≡ left_after given waiting.old }
    ensures tag { LetsGo waiting.old tags.old.items tags.new.items result given }
{
    let Given::Bytes { .. } = given else {
        return 0;
    };
    let tag = match waiting {
        Some(gone) => tag_for(tags, &gone.output),
        None => 0,
    };
    *waiting = None;
    tag
}

// The tag that is given with what goes out, which is kept no longer.
fn tag_for(tags: &mut VecDeque<Tag>, output: &Output) -> u64
    ensures tag { result ≡ tag_of (out_of output.now) tags.old.items }
    ensures later { tags.new.items ≡ tags_after (out_of output.now) tags.old.items }
{
    let Some(txn) = begun_of(output) else {
        return 0;
    };
    let Some(first) = tags.front() else {
        return 0;
    };
    if first.txn != txn {
        return 0;
    }
    let tag = first.tag;
    tags.pop_front();
    tag
}

// The transaction that is said to have begun by what goes out.
fn begun_of(output: &Output) -> Option<TxnId>
    ensures { result ≡ begun_of (out_of output.now) }
{
    match output {
        Output::Note(Note::Txn(txn)) => Some(*txn),
        Output::Message(_)
        | Output::Note(Note::Commit { .. })
        | Output::Note(Note::Refuse { .. })
        | Output::Note(Note::Full(_))
        | Output::Note(Note::Spent) => None,
    }
}
