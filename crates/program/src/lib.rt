// What the programs write for their input: `planner` a sheet's plan, `why` the causes of its stretches, and
// `practice_sheet` the sheet of a seed.
//
// The outputs are stated in specs/Program.antt. Only programs name this crate: a refusal's text is the programs' alone,
// and a call for outsiders writes no byte on any refusal but 12.
#![tactic(auto)]

ghost use Rattle.std.specs.Prelude.{◌≡◌};
ghost use Rattle.program.specs.Program.{output_of, explanation_of, made_sheet_of};

use checks::Fault;
use listing::opening;
use plan_lines::sizes::{CAUSES_BYTES, PLAN_BYTES};
use practice::sizes::PRACTICE_BYTES;

const NO_PLACING: u32 = Fault::Placing as u32;

const BAD_FORM: u32 = Fault::Form as u32;

// What a program writes for an input, in the first `length` bytes; the others are 0. The bytes are an array, as memory
// is fixed here: N is the most that the program writes.
#[derive(Drop)]
pub struct Output<const N: usize> {
    pub bytes: [u8; N],
    pub length: usize,
}

// The planner's whole output for an input: the listing of its plan, or of the sheet that is held for want of blowers,
// or the text of any other refusal.
pub fn answer(b: &[u8]) -> Output<PLAN_BYTES>
    ensures { result ≡ output_of b.now }
{
    let mut bytes = [0u8; PLAN_BYTES];
    let planned = planning::plan(b, &mut bytes);
    if planned.number == 0 || planned.number == NO_PLACING {
        return Output {
            bytes,
            length: planned.length,
        };
    }
    let length = opening::put_refusal(&mut bytes, planned.number, planned.line);
    Output { bytes, length }
}

// The whole output of `why` for an input, in the first `length` bytes; the others are 0. `cut` says that the causes'
// listing was cut. An `Output` within it would be no plainer: each program that reads it would name it twice.
#[derive(Drop)]
pub struct Explanation {
    pub bytes: [u8; CAUSES_BYTES],
    pub length: usize,
    pub cut: bool,
}

// The causes of the stretches of the input's plan; of an input that has none, what `answer` gives.
pub fn explain(b: &[u8]) -> Explanation
    ensures { result ≡ explanation_of b.now }
{
    let mut bytes = [0u8; CAUSES_BYTES];
    let listed = causes::list_causes(b, &mut bytes);
    if listed.number == 0 {
        return Explanation {
            bytes,
            length: listed.length,
            cut: listed.cut,
        };
    }
    if listed.number == NO_PLACING {
        let planned = planning::plan(b, &mut bytes);
        return Explanation {
            bytes,
            length: planned.length,
            cut: false,
        };
    }
    let length = opening::put_refusal(&mut bytes, listed.number, listed.line);
    Explanation {
        bytes,
        length,
        cut: false,
    }
}

// The whole output of `practice_sheet`: the practice sheet of the seed that the input has, or the text of refusal 2 for
// any other input.
pub fn make_sheet(b: &[u8]) -> Output<PRACTICE_BYTES>
    ensures { result ≡ made_sheet_of b.now }
{
    let mut bytes = [0u8; PRACTICE_BYTES];
    if practice::seed_faulty(b) {
        let length = opening::put_refusal(&mut bytes, BAD_FORM, 1);
        return Output { bytes, length };
    }
    let written = practice::write_practice(line::field_number(b, 0), &mut bytes);
    Output {
        bytes,
        length: written.length,
    }
}
