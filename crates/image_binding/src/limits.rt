// SPDX-License-Identifier: Apache-2.0
//! What is limited, and the answer where there is more.
ghost use Rattle.std.specs.Prelude.{◌≡◌, ◌≤◌, ◌<◌, ◌^◌, ⊤, length};
ghost use Rattle.sh_types.specs.Limits.{most_code, most_functions, most_mapped};
ghost use Rattle.elf_rules.specs.declared.refusals.LimitKind.TheVariants as kind;
ghost use Rattle.elf_rules.specs.Bindable.{Passes, above, code_by, mapped_by};

use elf_rules::{LimitKind, LoadFault, Segment};
use sh_types::Function;
use sh_types::limits::{MOST_CODE, MOST_FUNCTIONS, MOST_MAPPED};

fn limited(kind: LimitKind, most: u64, value: u64) -> Result<(), LoadFault>
    ensures { Passes result (above kind most value) (λ _. ⊤) }
{
    if value > most {
        return Err(LoadFault::Limit { kind, value });
    }
    Ok(())
}

/// The bytes of the segments in memory.
pub fn mapped_by(segments: &[Segment]) -> u64
    requires { mapped_by segments.now < 2 ^ 64 }
    ensures { result ≡ mapped_by segments.now }
{
    let mut sum = 0;
    for segment in segments {
        sum += segment.size;
    }
    sum
}

/// Refuses more mapped bytes than the limit.
pub fn limited_memory(segments: &[Segment]) -> Result<(), LoadFault>
    requires { mapped_by segments.now < 2 ^ 64 }
    ensures { Passes result (above kind.Mapped most_mapped (mapped_by segments.now)) (λ _. ⊤) }
{
    limited(LimitKind::Mapped, MOST_MAPPED, mapped_by(segments))
}

/// Refuses more functions than the limit.
pub fn limited_functions(functions: &[Function]) -> Result<(), LoadFault>
    ensures { Passes result (above kind.Functions most_functions (length functions.now)) (λ _. ⊤) }
{
    limited(LimitKind::Functions, MOST_FUNCTIONS, functions.len() as u64)
}

fn code_by(functions: &[Function]) -> u64
    requires { length functions.now ≤ most_functions }
    ensures { result ≡ code_by functions.now }
{
    let mut sum = 0;
    for function in functions {
        sum += u64::from(function.size);
    }
    sum
}

/// Refuses more bytes of functions than the limit.
pub fn limited_code(functions: &[Function]) -> Result<(), LoadFault>
    requires { length functions.now ≤ most_functions }
    ensures { Passes result (above kind.Code most_code (code_by functions.now)) (λ _. ⊤) }
{
    limited(LimitKind::Code, MOST_CODE, code_by(functions))
}
