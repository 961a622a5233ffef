// Accesses that are asked for, or faults.
ghost use Rattle.std.specs.Prelude.{◌≢◌, IfErr};
ghost use Rattle.b2_base.specs.declared.codes.Fault.TheVariants as of_fault;
ghost use Rattle.b2_stmt_file.specs.Asking.{GivesAccess};

use b2_access::Access;
use b2_base::{Code, Fault};

/// What is asked for, or a code as a fault.
pub fn or_fault(asked: Result<Access, Code>) -> Result<Access, Fault>
    ensures given { GivesAccess asked result }
    ensures memory { IfErr result (λ fault. fault ≢ of_fault.NoMemory) }
{
    match asked {
        Ok(access) => Ok(access),
        Err(code) => Err(Fault::Code(code)),
    }
}
