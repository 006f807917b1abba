// What a call for C leaves of an answer. Enums do not cross to C, so the answer's numbers are written
// out, as `numbers` of the model lists them: the refusal is the result, the values go to an array.
#![tactic(auto)]

ghost use Rattle.c_answer.specs.Exported.{Written};
ghost use Rattle.model.specs.Promises.{exclusive};

use model::Answer;

// The answer's refusal, 0 where the call is accepted; its values go to `out`, 0 where it has none.
pub fn write_answer(answer: Answer, out: &mut [u64; 3]) -> u64
    ensures { Written answer (exclusive out) result }
{
    let (refusal, values) = match answer {
        Answer::Refused(n) => (n, [0; 3]),
        Answer::Done => (0, [0; 3]),
        Answer::Value(v) => (0, [v, 0, 0]),
        Answer::Swept(start, freed, returned) => (0, [start, freed, returned]),
    };
    *out = values;
    refusal
}
