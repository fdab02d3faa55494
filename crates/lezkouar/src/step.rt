// The built-in step: its coordinator is cut between writing and securing its decision, once with the record lost and once with it kept.
use crate::refusal::Refusal;
use crate::rehearsing::rehearse_parts;
use crate::tracing::Ending;

// Three stores vote for the step, and the coordinator writes its decision.
const UP_TO_THE_CUT: &str = "open 7
register durable
register durable
register durable
join 0
join 1
join 2
commit
post
deliver
deliver
deliver
vote 0 prepared
vote 1 prepared
vote 2 prepared
settle 0
post
settle 1
post
settle 2
post
deliver
deliver
deliver
settle coordinator";

// The power goes: none of the loose records is left, or one.
const LOST: &str = "cut coordinator 0";

const KEPT: &str = "cut coordinator 1";

// The stores wait for the outcome: they send their votes again, hear the answer, and do as it says.
const BEHIND_THE_CUT: &str = "resend 0
post
resend 1
post
resend 2
post
deliver
deliver
deliver
deliver
deliver
deliver
settle 0
post
settle 1
post
settle 2
post
deliver
deliver
deliver
outcome";

// Rehearses the step both ways, and says what was decided and why all agree.
pub(crate) fn rehearse_step(rt: &HostRuntime) -> Result<(), Refusal<'static>> {
    println!(rt;
        "Step 7 of a coupled analysis closes. The stores of three solvers, thermal (seat 0), structural (seat 1) and fatigue (seat 2), vote for it. The coordinator writes its decision to its log, and the power goes before the log is secured."
    )?;
    println!(rt; "")?;
    println!(rt; "The record of the decision is lost:")?;
    let lost = rehearse_parts(rt, &[UP_TO_THE_CUT, LOST, BEHIND_THE_CUT])?;
    tell(rt, lost)?;
    println!(rt; "")?;
    println!(rt; "The record of the decision is kept:")?;
    let kept = rehearse_parts(rt, &[UP_TO_THE_CUT, KEPT, BEHIND_THE_CUT])?;
    tell(rt, kept)?;
    println!(rt; "")?;
    println!(rt;
        "Why all agree: no store hears Commit before the decision is safe, so nobody had kept the step when the power went. A store that sent Prepared is bound by its vote until it hears the outcome, and asks again. The coordinator answers by its log alone, and the log says the same to all. That this holds wherever the power goes, in whatever order notifications come, and over every log and every line is proved, not tried: docs/PROMISES.md."
    )?;
    Ok(())
}

// Says what was decided.
fn tell(rt: &HostRuntime, ending: Ending) -> Result<(), Refusal<'static>> {
    let words = match ending {
        Ending::Committed => {
            "Decided: the step is kept. The restarted coordinator finds its decision in its log; it answers each vote with Commit, and all three stores keep the step."
        }
        Ending::RolledBack => {
            "Decided: the step is undone. The restarted coordinator finds no decision in its log; it answers each vote with Rollback, and all three stores undo the step."
        }
        Ending::Nobody => "Nothing was decided.",
        Ending::Differently => "They did not end alike.",
    };
    println!(rt; "{words}")?;
    Ok(())
}
