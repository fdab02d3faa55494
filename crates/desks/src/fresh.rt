ghost use Rattle.std.specs.Prelude.{◌≡◌, ◌++◌, not};
ghost use Rattle.agreement.specs.Logs.{of_transaction, some_is};

use logs::listing::Records;
use logs::log::Log;

// Whether a log has no record of a transaction.
pub(crate) fn is_fresh<L: Log>(log: &L, transaction: u32) -> bool
    ensures { result ≡ not (some_is (of_transaction transaction) (L.Log.safe log.now ++ L.Log.loose log.now)) }
{
    for record in Records::over(log) {
        if record.transaction == transaction {
            return false;
        }
    }
    true
}
