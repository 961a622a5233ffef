// How statements end.
ghost use Rattle.std.specs.Prelude.{◌≡◌, IfErr, IfOk};
ghost use Rattle.b2_base.specs.declared.codes.Fault.TheVariants as of_fault;
ghost use Rattle.b2_access.specs.Endings.{FailsWith};
ghost use Rattle.b2_access.specs.Planning.{goes_or};

use crate::planned::Outcome;
use b2_base::{Code, Fault, NoMemory};

/// A fault with its code, where memory didn't fail.
pub fn failing(fault: Fault) -> Result<Outcome, NoMemory>
    ensures fails { IfOk result (λ o. FailsWith fault o) }
    ensures memory { IfErr result (λ _. fault ≡ of_fault.NoMemory) }
{
    match fault {
        Fault::Code(code) => Ok(Outcome::Failed(code)),
        Fault::NoMemory => Err(NoMemory),
    }
}

/// Where a statement goes on, or a fault.
pub fn goes_or(goes: Outcome, code: Option<Code>) -> Outcome
    ensures { result ≡ goes_or goes code }
{
    match code {
        Some(code) => Outcome::Failed(code),
        None => goes,
    }
}
