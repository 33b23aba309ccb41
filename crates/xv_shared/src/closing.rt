//! The end of the sharing: every pass is put back, and the books are seen to stand at their sums.

ghost use Rattle.std.specs.Prelude.{◌≡◌, ◌+◌, not, length, sum_by, count_by};
ghost use Rattle.xv_core.specs.Keeping.{IsKept};
ghost use Rattle.xv_core.specs.Origin.{HasOrigin};
ghost use Rattle.xv_shared.specs.Tallies.{once};
ghost use Rattle.xv_shared.specs.Held.{by_kind, entries};
ghost use Rattle.xv_shared.specs.Crews.{AreAll, sums, number, is_guest, done, queued, faulted, other};

use crate::books::Shares;
use crate::ledgers::Named;
use crate::locked::Locked;
use crate::passes::{GuestPass, Pass, WorkerPass};
use std::sync::ledger::Ledger;
use xv_core::Migration;
use xv_device::UnitDevice;
use xv_wire::Wire;

/// Puts all passes back, and gives the migration.
pub(crate) fn end<S: UnitDevice, T: UnitDevice, W: Wire, D: Named, Q: Ledger, F: Ledger, R: Ledger>(
    locked: Locked<S, T, W, D, Q, F, R>,
    passes: Vec<Pass<D, Q, F, R>>,
) -> Migration<S, T, W>
    requires { AreAll (by_kind D.parts Q.parts F.parts R.parts) passes.items }
    ensures came { HasOrigin D.origin result }
    ensures kept { IsKept result }
    ensures sums { sums passes.items ≡ entries result.journal }
    ensures all { sum_by number passes.items ≡ length result.journal }
{
    let Locked {
        migration,
        mut books,
        mut spare,
        publisher: _,
        progress: _,
    } = locked;
    let _ = migration.journal();
    books.done.audit(&mut spare.done);
    books.queued.audit(&mut spare.queued);
    books.faulted.audit(&mut spare.faulted);
    books.other.audit(&mut spare.other);
    gather(&mut spare, passes);
    books.done.audit(&mut spare.done);
    books.queued.audit(&mut spare.queued);
    books.faulted.audit(&mut spare.faulted);
    books.other.audit(&mut spare.other);
    migration
}

/// Puts the shares of all passes together.
fn gather<D: Named, Q: Ledger, F: Ledger, R: Ledger>(
    shares: &mut Shares<D, Q, F, R>,
    mut passes: Vec<Pass<D, Q, F, R>>,
)
    ensures done_parts { shares.new.done.parts ≡ shares.old.done.parts + count_by is_guest passes.items }
    ensures queued_parts { shares.new.queued.parts ≡ shares.old.queued.parts + count_by is_guest passes.items }
    ensures faulted_parts { shares.new.faulted.parts ≡ shares.old.faulted.parts + count_by is_guest passes.items }
    ensures other_parts { shares.new.other.parts ≡ shares.old.other.parts + count_by (λ p. not (is_guest p)) passes.items }
    ensures done { shares.new.done.amount ≡ shares.old.done.amount + sum_by done passes.items }
    ensures queued { shares.new.queued.amount ≡ shares.old.queued.amount + sum_by queued passes.items }
    ensures faulted { shares.new.faulted.amount ≡ shares.old.faulted.amount + sum_by faulted passes.items }
    ensures other { shares.new.other.amount ≡ shares.old.other.amount + sum_by other passes.items }
{
    while let Some(pass) = passes.pop() {
        put_back(shares, pass);
    }
}

/// Puts the shares of a pass back.
fn put_back<D: Named, Q: Ledger, F: Ledger, R: Ledger>(
    shares: &mut Shares<D, Q, F, R>,
    pass: Pass<D, Q, F, R>,
)
    ensures done_parts { shares.new.done.parts ≡ shares.old.done.parts + once (is_guest pass) }
    ensures queued_parts { shares.new.queued.parts ≡ shares.old.queued.parts + once (is_guest pass) }
    ensures faulted_parts { shares.new.faulted.parts ≡ shares.old.faulted.parts + once (is_guest pass) }
    ensures other_parts { shares.new.other.parts ≡ shares.old.other.parts + once (not (is_guest pass)) }
    ensures done { shares.new.done.amount ≡ shares.old.done.amount + done pass }
    ensures queued { shares.new.queued.amount ≡ shares.old.queued.amount + queued pass }
    ensures faulted { shares.new.faulted.amount ≡ shares.old.faulted.amount + faulted pass }
    ensures other { shares.new.other.amount ≡ shares.old.other.amount + other pass }
{
    match pass {
        Pass::Guest(pass) => {
            let GuestPass {
                done_share,
                queued_share,
                faulted_share,
                ..
            } = pass;
            shares.done.merge(done_share);
            shares.queued.merge(queued_share);
            shares.faulted.merge(faulted_share);
        }
        Pass::Other(pass) => {
            let WorkerPass { share, .. } = pass;
            shares.other.merge(share);
        }
    }
}
