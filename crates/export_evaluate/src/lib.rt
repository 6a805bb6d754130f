// What is told of an evaluation: a status. The results stand in the lent buffer already.
#![tactic(auto)]

ghost use Rattle.std.specs.Prelude.{◌≡◌};
ghost use Rattle.evaluate_meaning.specs.Answer.{in_numbers};
ghost use Rattle.export_evaluate.specs.Told.{status_of};

use export_words::VALUE;
use fields::Refusal;

pub fn tell_evaluation(got: Result<usize, Refusal>) -> u32
    ensures { result ≡ status_of (in_numbers got) }
{
    match got {
        Ok(_) => VALUE,
        Err(why) => u32::from(why),
    }
}
