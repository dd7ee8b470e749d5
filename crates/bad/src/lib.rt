// The first counted bad, from the signal bytes of all steps and a mark for each signal: 1 for a bad line, 0 for a constraint.
#![tactic(auto)]

ghost use Rattle.std.specs.Prelude.{◌≡◌, false, not, ◌&&◌, ◌+◌, ◌≤◌, ◌*◌, eqb, length, MatchOption};
ghost use Rattle.tables.specs.Pick.{pick};
ghost use Rattle.circuits.specs.Run.{met as met_of, bad_at, first_bad};
ghost use Rattle.circuits.specs.Model.Signals.{zip_sig, sig_rows};

use circuits::FirstBad;

// A constraint whose byte is not 1.
fn breaks(b: u8, v: u8) -> bool
    ensures { result ≡ pick (eqb b 1) false (not (eqb v 1)) }
{
    b != 1 && v != 1
}

// A bad line whose byte is 1.
fn hits(b: u8, v: u8) -> bool
    ensures { result ≡ (eqb b 1 && eqb v 1) }
{
    b == 1 && v == 1
}

// The next place among the bad lines.
fn next_place(b: u8, p: usize) -> usize
    requires { p ≤ 16385 }
    ensures { result ≡ pick (eqb b 1) (p + 1) p }
{
    if b == 1 { p + 1 } else { p }
}

// The constraints of a step are met; the step's bytes come first in row.
fn met(row: &[u8], bad: &[u8]) -> bool
    requires { length bad.now ≤ length row.now }
    ensures { result ≡ met_of (zip_sig bad.now row.now) }
{
    bad.iter().zip(row).all(|(b, v)| !breaks(*b, *v))
}

// The first counted bad in k steps.
pub fn first_bad(k: usize, signals: &[u8], bad: &[u8]) -> Option<FirstBad>
    requires { (k ≤ 4096) × ((length bad.now ≤ 16384) × (k * length bad.now ≤ length signals.now)) }
    ensures { result ≡ first_bad 0 (sig_rows bad.now k signals.now) }
{
    let mut found = None;
    let mut row = signals;
    'steps: for i in 0..k {
        if !met(row, bad) {
            break 'steps;
        }
        let mut p = 1;
        for (b, v) in bad.iter().zip(row) {
            if hits(*b, *v) {
                found = Some(FirstBad { step: i, place: p });
                break 'steps;
            }
            p = next_place(*b, p);
        }
        row = &row[bad.len()..];
    }
    found
}
