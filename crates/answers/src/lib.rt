// What the C functions answer: a refusal's number, 0 when done, and three words.
#![tactic(auto)]

ghost use Rattle.std.specs.Prelude.{◌≡◌, List, [], ◌∷◌, ℕ, length};
ghost use Rattle.tables.specs.Answers.{Outcome, told};
ghost use Rattle.texts.specs.Reading.{told_read};
ghost use Rattle.circuits.specs.Answers.{told_run};
ghost use Rattle.answers.specs.Answers.{three, zeros, tells};

use circuits::FirstBad;
use tables::Refusal;
use texts::TextRefusal;

// Whether a list is an answer list; all its words are then 0.
pub fn take(answer: &mut [u64]) -> bool
    ensures { (result ≡ three answer.old) × (answer.new ≡ zeros answer.old) }
{
    records::clear(answer);
    answer.len() == 3
}

// The words of an answer list.
pub fn tell(answer: &mut [u64], a: u64, b: u64, c: u64)
    requires { length answer.old ≡ 3 }
    ensures { answer.new ≡ a ∷ b ∷ c ∷ [] }
{
    answer.copy_from_slice(&[a, b, c]);
}

// What an operation answers, as the C interface tells it.
pub trait Told {
    ghost outcome: { Self → List (List ℕ) → Outcome };

    // A refusal's number, or 0; and the words of the answer list.
    fn words(self) -> (u64, [u64; 3])
        ensures { (left : List (List ℕ)) → tells result.0 result.1 left ≡ outcome self left };
}

// Reading: the number of records, or the text line of a refusal.
impl Told for Result<usize, TextRefusal> {
    ghost outcome = { told_read };

    fn words(self) -> (u64, [u64; 3]) {
        match self {
            Ok(n) => (0, [n as u64, 0, 0]),
            Err(e) => (u64::from(e.refusal), [e.line as u64, 0, 0]),
        }
    }
}

// Writing, flattening, translating and the conversions: how much they leave.
impl Told for Result<usize, Refusal> {
    ghost outcome = { told };

    fn words(self) -> (u64, [u64; 3]) {
        match self {
            Ok(n) => (0, [n as u64, 0, 0]),
            Err(r) => (u64::from(r), [0, 0, 0]),
        }
    }
}

// A run: 1, and the step and the place of the first counted bad, or three zeros.
impl Told for Result<Option<FirstBad>, Refusal> {
    ghost outcome = { told_run };

    fn words(self) -> (u64, [u64; 3]) {
        match self {
            Ok(None) => (0, [0, 0, 0]),
            Ok(Some(bad)) => (0, [1, bad.step as u64, bad.place as u64]),
            Err(r) => (u64::from(r), [0, 0, 0]),
        }
    }
}

// A peek: the value.
impl Told for Result<u64, Refusal> {
    ghost outcome = { told };

    fn words(self) -> (u64, [u64; 3]) {
        match self {
            Ok(v) => (0, [v, 0, 0]),
            Err(r) => (u64::from(r), [0, 0, 0]),
        }
    }
}

// Tells what an operation answers.
pub fn tell_answer<T: Told>(r: T, answer: &mut [u64]) -> u64
    requires { length answer.old ≡ 3 }
    ensures { (left : List (List ℕ)) → tells result answer.new left ≡ T.outcome r left }
{
    let (number, words) = r.words();
    answer.copy_from_slice(&words);
    number
}
