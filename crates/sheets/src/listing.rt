//! What a sheet says, or its fault, as lines of text.
use sheet::{Gate, OutputRecord, Sheet};

fn gate(rt: &HostRuntime, k: usize, gate: Gate) -> anyhow::Result<()> {
    let Gate { kind, a, b, c } = gate;
    println!(rt; "gate {k}: {kind} {a} {b} {c}")?;
    Ok(())
}

fn output(rt: &HostRuntime, output: OutputRecord) -> anyhow::Result<()> {
    let signal = output.signal;
    match std::str::from_utf8(output.name) {
        Ok(name) => println!(rt; "output {signal} {name}")?,
        Err(_) => println!(rt; "output {signal}")?,
    }
    Ok(())
}

/// Reads some bytes and prints what they say, or their fault.
pub fn list(rt: &HostRuntime, bytes: &[u8]) -> anyhow::Result<()> {
    match Sheet::read(bytes) {
        Ok(sheet) => {
            println!(rt; "inputs {}", sheet.inputs())?;
            for (k, record) in sheet.gate_records().enumerate() {
                gate(rt, k, record)?;
            }
            for record in sheet.output_records() {
                output(rt, record)?;
            }
        }
        Err(fault) => println!(rt; "fault {fault}")?,
    }
    Ok(())
}

/// Reads some bytes and prints how many of each they have, or their fault.
// `list` and this both read first, and differ in all that they do with a sheet: a shared read would only hand it on.
pub fn summary(rt: &HostRuntime, bytes: &[u8]) -> anyhow::Result<()> {
    match Sheet::read(bytes) {
        Ok(sheet) => println!(rt;
            "accepted: inputs {} gates {} outputs {}",
            sheet.inputs(),
            sheet.gates(),
            sheet.outputs()
        )?,
        Err(fault) => println!(rt; "fault {fault}")?,
    }
    Ok(())
}
