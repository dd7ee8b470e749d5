// The steps of a run. The words of the work area before the plan's cells end are the lines' cells, those behind them the state words.
#![tactic(auto)]

ghost use Rattle.std.specs.Prelude.{◌≡◌, ◌≤◌, ◌*◌, ◌+◌, ◌<◌, length, drop, replicate};
ghost use Rattle.circuits.specs.Run.{bytes, steps as steps_of, run};
ghost use Rattle.tables.specs.Layout.{lines_of};
ghost use Rattle.circuits.specs.Model.Feeding.{Rows};

use starts::Plan;

// k steps, each from the state words that the last one left, but for those of the free states, whose lines are given. A row has as many
// inputs as the plan's totals, and behind them as many words for free states.
fn steps(plan: Plan, free: &[u32], k: usize, inputs: &[u64], signals: &mut [u8], work: &mut [u64])
    requires { (length work.old ≡ plan.totals.cells + plan.totals.states)
        × (Rows plan.program (lines_of plan.program plan.table.now plan.count) (plan.totals.inputs + plan.totals.free) free.now
        × ((k * (plan.totals.inputs + plan.totals.free) ≤ length inputs.now) × (length signals.old ≡ k * plan.totals.signals))) }
    ensures { signals.new ≡ bytes (steps_of plan.entry.program (lines_of plan.entry.program plan.entry.table.now plan.entry.count) k (drop plan.entry.totals.cells work.old) inputs.now) }
{
    let t = plan.totals;
    let mut r = 0;
    let mut g = 0;
    for i in 0..k {
        let e = r + t.inputs;
        let n = e + t.free;
        let h = g + t.signals;
        free_states::enter(i, free, plan.laid, &inputs[e..n], t.cells, work);
        walks::walk(
            plan.program,
            false,
            plan.table,
            plan.count,
            plan.laid,
            t.cells,
            &inputs[r..e],
            &mut signals[g..h],
            work,
        );
        r = n;
        g = h;
    }
}

// A run of at least one step, with the lines of the free states. The work area is zero after it.
pub fn run_laid(
    plan: Plan,
    free: &[u32],
    k: usize,
    starts: &[u64],
    inputs: &[u64],
    signals: &mut [u8],
    work: &mut [u64],
)
    requires { (length work.old ≡ plan.totals.cells + length starts.now) × ((length starts.now ≡ plan.totals.states)
        × (Rows plan.program (lines_of plan.program plan.table.now plan.count) (plan.totals.inputs + plan.totals.free) free.now
        × ((k * (plan.totals.inputs + plan.totals.free) ≤ length inputs.now) × ((length signals.old ≡ k * plan.totals.signals) × (0 < k))))) }
    ensures { (signals.new ≡ bytes (run plan.entry.program (lines_of plan.entry.program plan.entry.table.now plan.entry.count) k starts.now inputs.now))
        × (work.new ≡ replicate (length work.old) 0) }
{
    let row = &inputs[..plan.totals.inputs];
    starts::begin(plan, starts, row, &mut signals[..plan.totals.signals], work);
    steps(plan, free, k, inputs, signals, work);
    area::fill(work, 0);
}
