ghost use Rattle.std.specs.Prelude.{◌≤◌, nat_le, OnOk};
ghost use Rattle.list_checks.specs.First.{Reports, unless};
ghost use Rattle.elf_reader.specs.HeaderChecks.{capped};

use crate::fault::ElfFault;

/// There are at most `most` of what is counted.
pub(crate) fn check_count(what: u32, count: u64, most: u64) -> Result<(), ElfFault>
    ensures fault { Reports result (unless (nat_le count most) (ElfFault.OverLimit what (capped count))) }
    ensures most { OnOk result (count ≤ most) }
{
    if count > most {
        let count = u32::try_from(count).unwrap_or(u32::MAX);
        return Err(ElfFault::OverLimit { what, count });
    }
    Ok(())
}
