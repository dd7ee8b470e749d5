// A run of an accepted table: what has to be lent (13 to 17), the places, the steps, the first counted bad. One engine runs circuits and programs.
#![tactic(auto)]

ghost use Rattle.std.specs.Prelude.{◌≡◌, [], ◌∷◌, ◌+◌, ◌<◌, length, replicate, Ok};
ghost use Rattle.tables.specs.Layout.{lines_of};
ghost use Rattle.circuits.specs.Answers.{lent as lent_of, told_run};
ghost use Rattle.circuits.specs.Free.{sources, free_count};
ghost use Rattle.circuits.specs.Run.{run, bytes};
ghost use Rattle.circuits.specs.Model.Passes.{counts_of, Noted};
ghost use Rattle.circuits.specs.Model.Answers.{RunAsked, started, lent_runs};

use area::LAID;
use circuits::{FirstBad, Totals};
use starts::Plan;
use tables::{Note, Refusal};

// 13 to 17: s start words, i input words, g signal bytes and w words of work area are lent for k steps.
fn lent(t: Totals, k: usize, s: usize, i: usize, g: usize, w: usize) -> Result<(), Refusal>
    requires { (t.cells + t.states < 4294967296) × ((t.inputs + t.free < 4294967296) × (t.signals < 4294967296)) }
    ensures { result ≡ lent_of (counts_of t) (t.inputs + t.free) k s i g w }
{
    if 4096 < k {
        return Err(Refusal::TooManySteps);
    }
    if s != t.states {
        return Err(Refusal::StartWords);
    }
    if i != k * (t.inputs + t.free) {
        return Err(Refusal::InputWords);
    }
    if g != k * t.signals {
        return Err(Refusal::SignalBytes);
    }
    if w < t.cells + t.states {
        return Err(Refusal::WorkArea);
    }
    Ok(())
}

// The steps of a run. Where there are free states, their lines are found first.
fn run_steps(
    plan: Plan,
    notes: &[Note],
    k: usize,
    starts: &[u64],
    inputs: &[u64],
    signals: &mut [u8],
    work: &mut [u64],
)
    requires { Noted plan.program plan.table.now plan.count notes.now × ((length work.old ≡ plan.totals.cells + length starts.now)
        × ((length starts.now ≡ plan.totals.states)
        × (RunAsked plan.program (lines_of plan.program plan.table.now plan.count) plan.totals k (length inputs.now) (length signals.old)))) }
    ensures { (signals.new ≡ bytes (run plan.entry.program (lines_of plan.entry.program plan.entry.table.now plan.entry.count) k starts.now inputs.now))
        × (work.new ≡ replicate (length work.old) 0) }
{
    if plan.totals.free == 0 {
        steps::run_laid(plan, &[], k, starts, inputs, signals, work);
        return;
    }
    let mut lines = [0u32; 16385];
    let n = free_states::find(plan.program, plan.table, plan.count, notes, &mut lines);
    steps::run_laid(plan, &lines[..n], k, starts, inputs, signals, work);
}

// A run of which 13 to 17 do not hold; signals and work area are zero.
fn run_lent(
    plan: Plan,
    notes: &[Note],
    k: usize,
    starts: &[u64],
    inputs: &[u64],
    signals: &mut [u8],
    work: &mut [u64],
) -> Option<FirstBad>
    requires { Noted plan.program plan.table.now plan.count notes.now
        × ((plan.totals.free ≡ free_count (sources plan.program (lines_of plan.program plan.table.now plan.count)))
        × ((lent_of (counts_of plan.totals) (plan.totals.inputs + plan.totals.free) k
        (length starts.now) (length inputs.now) (length signals.old) (length work.old) ≡ Ok tt)
        × (work.old ≡ replicate (length work.old) 0))) }
    ensures { told_run (Ok result) (signals.new ∷ work.new ∷ [])
        ≡ started plan.entry.program (lines_of plan.entry.program plan.entry.table.now plan.entry.count) k starts.now inputs.now (length work.old) }
{
    if k == 0 {
        return None;
    }
    let used = plan.totals.cells + plan.totals.states;
    run_steps(plan, notes, k, starts, inputs, signals, &mut work[..used]);
    let mut marks = [0u8; 16385];
    places::bad_marks(plan.program, plan.table, plan.count, &mut marks);
    bad::first_bad(k, signals, &marks[..plan.totals.signals])
}

// A run of an accepted table, with the notes of its check; signals and work area are zero.
pub fn run_checked(
    program: bool,
    table: &[u64],
    count: usize,
    notes: &[Note],
    k: usize,
    starts: &[u64],
    inputs: &[u64],
    signals: &mut [u8],
    work: &mut [u64],
) -> Result<Option<FirstBad>, Refusal>
    requires { Noted program table.now count notes.now × ((signals.old ≡ replicate (length signals.old) 0) × (work.old ≡ replicate (length work.old) 0)) }
    ensures { told_run result (signals.new ∷ work.new ∷ []) ≡ lent_runs program table.now count k
        starts.now inputs.now (length signals.old) (length work.old) }
{
    let mut laid = [[0u32; LAID]; 16385];
    let totals = places::lay_out(program, table, count, notes, &mut laid);
    lent(
        totals,
        k,
        starts.len(),
        inputs.len(),
        signals.len(),
        work.len(),
    )?;
    let plan = Plan {
        program,
        table,
        count,
        laid: &laid,
        totals,
    };
    Ok(run_lent(plan, notes, k, starts, inputs, signals, work))
}
