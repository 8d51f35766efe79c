use reader::Fault;
use std::io;

/// Prints a refusal's number, its layer's number and its line.
pub(crate) fn print_fault(rt: &HostRuntime, fault: Fault) -> io::Result<()> {
    println!(rt;
        "refused {} {} {}",
        fault.refusal.number(),
        fault.layer.number(),
        fault.line
    )
}
