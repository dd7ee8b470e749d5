// The word of a line and a cell of an array, each found from words and cells of earlier lines; words that were found are kept.
#![tactic(auto)]

ghost use Rattle.peeks.specs.Model.Looks.{WordAsked, WordFound, CellAsked, CellFound};

use area::LAID;

// What a peek looks into: an accepted table and its count, what is known of its lines, the lines of the states' init values, the start words and the row.
#[derive(Clone, Copy)]
pub struct Circuit<'a> {
    pub table: &'a [u64],
    pub count: usize,
    pub laid: &'a [[u32; LAID]; 16385],
    pub inits: &'a [u64],
    pub starts: &'a [u64],
    pub row: &'a [u64],
}

// The word of the line n; `kept` has the word of each line whose word was found. A line looks at one or two earlier lines; where the first has more than one cell, two
// arrays are compared. Line 0, which is none, has the word 0.
#[cycle(cell_word)]
pub fn word(circuit: &Circuit, kept: &mut [Option<u64>; 65], n: usize) -> u64
    requires { WordAsked circuit.now.table.now circuit.now.count circuit.now.laid.now circuit.now.inits.now circuit.now.starts.now circuit.now.row.now kept.old n }
    ensures { WordFound circuit.now.table.now circuit.now.count circuit.now.starts.now circuit.now.row.now kept.new n result }
{
    if let Some(v) = kept[n] {
        return v;
    }
    let rec = peek_values::record(circuit.table, n - 1);
    let a = peek_values::first(rec, circuit.inits[n]);
    let m = area::cells(circuit.laid, a);
    if 1 < m {
        let mut same = true;
        for k in 0..m {
            let x = cell(circuit, kept, a, k);
            if x != cell(circuit, kept, rec[3] as usize, k) {
                same = false;
                break;
            }
        }
        let v = evaluation::says(rec[0] == 21, same);
        return peek_values::keep(kept, n, v);
    }
    let x = word(circuit, kept, a);
    let b = peek_values::second(rec, x);
    if rec[0] == 54 {
        let v = cell(circuit, kept, b, x as usize);
        return peek_values::keep(kept, n, v);
    }
    let y = word(circuit, kept, b);
    let v = peek_values::value(rec, n, a, circuit.laid, circuit.starts, circuit.row, x, y);
    peek_values::keep(kept, n, v)
}

// The cell k of the array on the line n: a state's, an ite's, or else a write's. A line that looks at no other is a state without an init.
#[cycle(cell_word)]
pub fn cell(circuit: &Circuit, kept: &mut [Option<u64>; 65], n: usize, k: usize) -> u64
    requires { CellAsked circuit.now.table.now circuit.now.count circuit.now.laid.now circuit.now.inits.now circuit.now.starts.now circuit.now.row.now kept.old n k }
    ensures { CellFound circuit.now.table.now circuit.now.count circuit.now.starts.now circuit.now.row.now kept.new n k result }
{
    let rec = peek_values::record(circuit.table, n - 1);
    let a = peek_values::first(rec, circuit.inits[n]);
    if a == 0 {
        return peek_values::start_word(n, k, circuit.laid, circuit.starts);
    }
    let x = word(circuit, kept, a);
    if rec[0] == 5 {
        return x;
    }
    let b = peek_values::second(rec, x);
    if rec[0] == 53 {
        return cell(circuit, kept, b, k);
    }
    let i = x as usize;
    if i == k {
        let v = rec[4] as usize;
        return word(circuit, kept, v);
    }
    cell(circuit, kept, b, k)
}
