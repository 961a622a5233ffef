// How a fault is answered.
ghost use Rattle.std.specs.Prelude.{◌≡◌, IfOk, IfErr};
ghost use Rattle.b2_store.specs.Refusals.{IsRefusal, made_answer};

use b2_access::Answer;
use b2_base::{Code, Fault, NoMemory};

/// The answer to a fault.
pub fn refusal(fault: Fault) -> Result<Answer, NoMemory>
    ensures refused { IfOk result (IsRefusal fault) }
    ensures memory { IfErr result (λ _. fault ≡ Fault.NoMemory) }
{
    match fault {
        Fault::Code(code) => Ok(Answer::Refused(code)),
        Fault::NoMemory => Err(NoMemory),
    }
}

/// The answer to a change that is made or refused.
pub fn made_answer(made: Result<(), Code>) -> Answer
    ensures { result ≡ made_answer made }
{
    match made {
        Ok(()) => Answer::Done,
        Err(code) => Answer::Refused(code),
    }
}
