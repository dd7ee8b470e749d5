// Runs of circuits and of programs: the check of the table, then the engine. The work area is zero after any call, and the signals after a refusal.
#![tactic(auto)]

ghost use Rattle.std.specs.Prelude.{◌≡◌, ◌≤◌, ◌<◌, false, true, [], ◌∷◌, length, replicate};
ghost use Rattle.circuits.specs.Answers.{told_run, runs};

use circuits::FirstBad;
use records::bytes;
use tables::{BLANK, Refusal};

// A run with a list that has room for N - 1 notes of the check: for all that count, or for all that a table may have; signals and work area are zero.
fn run_with<const N: usize>(
    program: bool,
    table: &[u64],
    count: usize,
    k: usize,
    starts: &[u64],
    inputs: &[u64],
    signals: &mut [u8],
    work: &mut [u64],
) -> Result<Option<FirstBad>, Refusal>
    requires { ((count ≤ 16384 → count < N) × (N ≤ 16385))
        × ((signals.old ≡ replicate (length signals.old) 0) × (work.old ≡ replicate (length work.old) 0)) }
    ensures { told_run result (signals.new ∷ work.new ∷ []) ≡ runs program table.now count k
        starts.now inputs.now (length signals.old) (length work.old) }
{
    let mut notes = [BLANK; N];
    checks::check(program, table, count, &mut notes)?;
    engine::run_checked(
        program, table, count, &notes, k, starts, inputs, signals, work,
    )
}

// A run of a circuit (program is false) or of a program, of k steps: 1, 11 (20 for a program), 13 to 17; else the first counted bad. A short table takes a short list of notes, since the
// list is cleared in every call.
fn run_table(
    program: bool,
    table: &[u64],
    count: usize,
    k: usize,
    starts: &[u64],
    inputs: &[u64],
    signals: &mut [u8],
    work: &mut [u64],
) -> Result<Option<FirstBad>, Refusal>
    ensures { told_run result (signals.new ∷ work.new ∷ []) ≡ runs program table.now count k
        starts.now inputs.now (length signals.old) (length work.old) }
{
    bytes::clear(signals);
    records::clear(work);
    if count < 512 {
        return run_with::<512>(program, table, count, k, starts, inputs, signals, work);
    }
    run_with::<16385>(program, table, count, k, starts, inputs, signals, work)
}

// A circuit's run.
pub fn run_circuit(
    table: &[u64],
    count: usize,
    k: usize,
    starts: &[u64],
    inputs: &[u64],
    signals: &mut [u8],
    work: &mut [u64],
) -> Result<Option<FirstBad>, Refusal>
    ensures { told_run result (signals.new ∷ work.new ∷ []) ≡ runs false table.now count k
        starts.now inputs.now (length signals.old) (length work.old) }
{
    run_table(false, table, count, k, starts, inputs, signals, work)
}

// A program's run of k steps: 1, 20, 13 to 17, the first that holds; else the first counted bad. One engine runs circuits and programs.
pub fn run_program(
    table: &[u64],
    count: usize,
    k: usize,
    starts: &[u64],
    inputs: &[u64],
    signals: &mut [u8],
    work: &mut [u64],
) -> Result<Option<FirstBad>, Refusal>
    ensures { told_run result (signals.new ∷ work.new ∷ []) ≡ runs true table.now count k
        starts.now inputs.now (length signals.old) (length work.old) }
{
    run_table(true, table, count, k, starts, inputs, signals, work)
}
