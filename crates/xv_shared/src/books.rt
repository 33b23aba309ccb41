//! The books of the four ledgers, shares of them, and a count that rises with them.

ghost use Rattle.std.specs.Prelude.{◌≡◌, ◌<◌, ◌≤◌, ◌+◌, ◌^◌};
ghost use Rattle.xv_shared.specs.Tallies.{once};

use std::sync::ledger::{Book, Ledger, Share};

/// Of each ledger its book.
#[derive(Drop)]
pub(crate) struct Books<D: Ledger, Q: Ledger, F: Ledger, R: Ledger> {
    pub(crate) done: Book<D>,
    pub(crate) queued: Book<Q>,
    pub(crate) faulted: Book<F>,
    pub(crate) other: Book<R>,
}

/// Of each ledger a share.
#[derive(Drop)]
pub(crate) struct Shares<D: Ledger, Q: Ledger, F: Ledger, R: Ledger> {
    pub(crate) done: Share<D>,
    pub(crate) queued: Share<Q>,
    pub(crate) faulted: Share<F>,
    pub(crate) other: Share<R>,
}

/// Counts one where it is so, in the book and in a share that has a part, and gives the count.
pub(crate) fn count_if<L: Ledger>(
    book: &mut Book<L>,
    share: &mut Share<L>,
    count: u64,
    so: bool,
) -> u64
    requires part { 0 < share.old.parts }
    requires amount { share.old.amount ≡ count }
    requires few { book.old.total < 2 ^ 32 }
    ensures counted { result ≡ count + once so }
    ensures few { result ≤ 2 ^ 32 }
    ensures total { book.new.total ≡ book.old.total + once so }
    ensures amount { share.new.amount ≡ result }
    ensures parts { share.new.parts ≡ share.old.parts }
{
    book.audit(share);
    let more = u64::from(so);
    book.add(share, more);
    count + more
}
