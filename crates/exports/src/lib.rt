// The C interface: each function returns a refusal's number, 0 when done, and writes its further values to `answer`, a list of three words. A list of another length is refused by 1.
#![tactic(auto)]

ghost use Rattle.std.specs.Prelude.{◌≡◌, false, true, [], ◌∷◌, length};
ghost use Rattle.tables.specs.Pick.{pick};
ghost use Rattle.texts.specs.Reading.{reads};
ghost use Rattle.texts.specs.Writing.{writes};
ghost use Rattle.flattening.specs.Answers.{flattens};
ghost use Rattle.programs.specs.Answers.{translates};
ghost use Rattle.circuits.specs.Answers.{runs};
ghost use Rattle.peeks.specs.Peek.{peeks};
ghost use Rattle.layouts.specs.Conversion.{converts};
ghost use Rattle.answers.specs.Answers.{three, zeros, tells, answered, Named};

use records::bytes;

// Reads a text into a table. The answer's first word is the number of records, or the text line of a refusal.
#[unsafe(no_mangle)]
pub extern "C" fn gofeshan_read(text: &[u8], table: &mut [u64], answer: &mut [u64]) -> u64
    ensures { tells result answer.new (table.new ∷ []) ≡ answered answer.old (table.old ∷ [])
        (reads (length table.old) text.now) }
{
    if !answers::take(answer) {
        records::clear(table);
        return 1;
    }
    answers::tell_answer(reading::read(text, table), answer)
}

// Writes the first `count` records of a table as text. The answer's first word is the number of bytes.
#[unsafe(no_mangle)]
pub extern "C" fn gofeshan_write(
    table: &[u64],
    count: usize,
    text: &mut [u8],
    answer: &mut [u64],
) -> u64
    ensures { tells result answer.new (text.new ∷ []) ≡ answered answer.old (text.old ∷ [])
        (writes table.now count (length text.old)) }
{
    if !answers::take(answer) {
        bytes::clear(text);
        return 1;
    }
    answers::tell_answer(writing::write(table, count, text), answer)
}

// Flattens a circuit. The answer's first word is the number of records in the target.
#[unsafe(no_mangle)]
pub extern "C" fn gofeshan_flatten(
    table: &[u64],
    count: usize,
    target: &mut [u64],
    answer: &mut [u64],
) -> u64
    ensures { tells result answer.new (target.new ∷ []) ≡ answered answer.old (target.old ∷ [])
        (flattens table.now count (length target.old)) }
{
    if !answers::take(answer) {
        records::clear(target);
        return 1;
    }
    answers::tell_answer(flatten::flatten(table, count, target), answer)
}

// Translates a flat circuit into a program. The answer's first word is the number of records in the target.
#[unsafe(no_mangle)]
pub extern "C" fn gofeshan_translate(
    table: &[u64],
    count: usize,
    target: &mut [u64],
    answer: &mut [u64],
) -> u64
    ensures { tells result answer.new (target.new ∷ []) ≡ answered answer.old (target.old ∷ [])
        (translates table.now count (length target.old)) }
{
    if !answers::take(answer) {
        records::clear(target);
        return 1;
    }
    answers::tell_answer(translating::translate(table, count, target), answer)
}

// Runs a circuit. The answer is 1, the step and the place of the first counted bad, or three zeros.
#[unsafe(no_mangle)]
pub extern "C" fn gofeshan_run_circuit(
    table: &[u64],
    count: usize,
    steps: usize,
    starts: &[u64],
    inputs: &[u64],
    signals: &mut [u8],
    work: &mut [u64],
    answer: &mut [u64],
) -> u64
    ensures { tells result answer.new (signals.new ∷ work.new ∷ []) ≡ answered answer.old (signals.old ∷ work.old ∷ [])
        (runs false table.now count steps starts.now inputs.now (length signals.old) (length work.old)) }
{
    if !answers::take(answer) {
        bytes::clear(signals);
        records::clear(work);
        return 1;
    }
    answers::tell_answer(
        runs::run_circuit(table, count, steps, starts, inputs, signals, work),
        answer,
    )
}

// Runs a program. The answer is 1, the step and the place of the first counted bad, or three zeros.
#[unsafe(no_mangle)]
pub extern "C" fn gofeshan_run_program(
    table: &[u64],
    count: usize,
    steps: usize,
    starts: &[u64],
    inputs: &[u64],
    signals: &mut [u8],
    work: &mut [u64],
    answer: &mut [u64],
) -> u64
    ensures { tells result answer.new (signals.new ∷ work.new ∷ []) ≡ answered answer.old (signals.old ∷ work.old ∷ [])
        (runs true table.now count steps starts.now inputs.now (length signals.old) (length work.old)) }
{
    if !answers::take(answer) {
        bytes::clear(signals);
        records::clear(work);
        return 1;
    }
    answers::tell_answer(
        runs::run_program(table, count, steps, starts, inputs, signals, work),
        answer,
    )
}

// The value of a line's cell at step 0, from start words and one row of inputs. The answer's first word is the value.
#[unsafe(no_mangle)]
pub extern "C" fn gofeshan_peek(
    table: &[u64],
    count: usize,
    line: usize,
    cell: usize,
    starts: &[u64],
    row: &[u64],
    answer: &mut [u64],
) -> u64
    ensures { tells result answer.new [] ≡ answered answer.old []
        (peeks table.now count line cell starts.now row.now) }
{
    if !answers::take(answer) {
        return 1;
    }
    answers::tell_answer(peeking::peek(table, count, line, cell, starts, row), answer)
}

// The name of the first line whose id is the given number: where it starts in the text, and its length; the length is 0 where it has none.
#[unsafe(no_mangle)]
pub extern "C" fn gofeshan_name(text: &[u8], id: u64, answer: &mut [u64]) -> u64
    ensures value { result ≡ pick (three answer.old) 0 1 }
    ensures named { three answer.old ≡ true → Named text.now id answer.new }
    ensures refused { three answer.old ≡ false → answer.new ≡ zeros answer.old }
{
    if !answers::take(answer) {
        return 1;
    }
    let p = naming::find(text, id);
    let from = p.from;
    let to = p.to;
    answers::tell(answer, from as u64, (to - from) as u64, 0);
    0
}

// A conversion between the layouts. The answer's first word is the number of records in the target. It is inlined, so that each export's loop has its strides as constants.
#[inline(always)]
fn convert(
    columns: bool,
    program: bool,
    list: &[u64],
    count: usize,
    target: &mut [u64],
    answer: &mut [u64],
) -> u64
    ensures { tells result answer.new (target.new ∷ []) ≡ answered answer.old (target.old ∷ [])
        (converts columns program list.now count (length target.old)) }
{
    if !answers::take(answer) {
        records::clear(target);
        return 1;
    }
    answers::tell_answer(
        layouts::convert(columns, program, list, count, target),
        answer,
    )
}

// A circuit whose records stand one behind the other goes to the target in columns.
#[unsafe(no_mangle)]
pub extern "C" fn gofeshan_circuit_to_columns(
    records: &[u64],
    count: usize,
    target: &mut [u64],
    answer: &mut [u64],
) -> u64
    ensures { tells result answer.new (target.new ∷ []) ≡ answered answer.old (target.old ∷ [])
        (converts true false records.now count (length target.old)) }
{
    convert(true, false, records, count, target, answer)
}

// A circuit in columns goes to the target, one record behind the other.
#[unsafe(no_mangle)]
pub extern "C" fn gofeshan_circuit_to_records(
    table: &[u64],
    count: usize,
    target: &mut [u64],
    answer: &mut [u64],
) -> u64
    ensures { tells result answer.new (target.new ∷ []) ≡ answered answer.old (target.old ∷ [])
        (converts false false table.now count (length target.old)) }
{
    convert(false, false, table, count, target, answer)
}

// A program whose records stand one behind the other goes to the target in columns.
#[unsafe(no_mangle)]
pub extern "C" fn gofeshan_program_to_columns(
    records: &[u64],
    count: usize,
    target: &mut [u64],
    answer: &mut [u64],
) -> u64
    ensures { tells result answer.new (target.new ∷ []) ≡ answered answer.old (target.old ∷ [])
        (converts true true records.now count (length target.old)) }
{
    convert(true, true, records, count, target, answer)
}

// A program in columns goes to the target, one record behind the other.
#[unsafe(no_mangle)]
pub extern "C" fn gofeshan_program_to_records(
    table: &[u64],
    count: usize,
    target: &mut [u64],
    answer: &mut [u64],
) -> u64
    ensures { tells result answer.new (target.new ∷ []) ≡ answered answer.old (target.old ∷ [])
        (converts false true table.now count (length target.old)) }
{
    convert(false, true, table, count, target, answer)
}
