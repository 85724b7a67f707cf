//! The list of services on the command line (profile).
ghost use Rattle.std.specs.Prelude.{IfOk, IfErr};
ghost use Rattle.command_line.specs.CommandLine.{IsList, RefusesList};

use crate::usage::Usage;
use std::alloc::Global;
use uecp_text::byte_of;

/// The numbers of a list such as `01,0A`: one or more numbers of two hexadecimal digits of either case, between
/// single commas.
pub fn services_of(alloc: Global, list: &str) -> Result<Vec<u8>, Usage>
    ensures list { IfOk result (λ services. IsList list.now services.items) }
    ensures refused { IfErr result (RefusesList list.now) }
{
    let mut services = Vec::new(alloc);
    for word in list.as_bytes().split(|byte| *byte == b',') {
        match byte_of(word) {
            Some(number) => services.push(number)?,
            None => return Err(Usage::NotAList),
        }
    }
    Ok(services)
}
