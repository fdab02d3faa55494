ghost use Rattle.agreement.specs.Statement.{Agreement, PromisesStand, SomeRun};
ghost use Rattle.agreement.specs.Names.{Committing, Rolled, Kept, Undone, ToldCommitted, ToldAborted};

// Agreement, whole, of every run of every transaction by the rules of both parties: no two parties end differently, a decision is backed by every vote, and an answer once given stays.
// Beside it: nothing is promised before it is safe, no promise is forgotten, and runs that commit and runs that roll back exist.
// There is nothing to do: the contract is the theorem.
pub fn agreement_stands()
    ensures agreement { Agreement }
    ensures promises { PromisesStand }
    ensures commits { SomeRun Committing Kept ToldCommitted }
    ensures aborts { SomeRun Rolled Undone ToldAborted }
{}
