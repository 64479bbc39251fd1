//! How long the largest sheet takes to write and to read.
use crate::filling::{Measures, fill};
use sheet::Sheet;
use std::time::{Duration, Instant};

/// The largest sheet.
const LARGEST: Measures = Measures {
    inputs: 64,
    gates: 600,
    outputs: 256,
    length: 16,
};

// How long some work takes, done so many times.
fn timed<F: FnMut()>(rt: &HostRuntime, times: u32, mut work: F) -> anyhow::Result<Duration>
    requires { F.IsAlwaysCallable work }
{
    let start = Instant::now(rt)?;
    for _ in 0..times {
        work();
    }
    Ok(start.elapsed(rt)?)
}

/// Writes and reads the largest sheet so many times, and prints how long one takes.
pub fn measure(rt: &HostRuntime, times: &str) -> anyhow::Result<()> {
    let times = times.parse::<u32>()?.max(1);
    let mut place = vec![in rt.alloc(); 0u8; 16384]?;
    let mut name = vec![in rt.alloc(); b'-'; 16]?;
    let mut size = 0;
    let writing = timed(rt, times, || {
        if let Ok(sheet) = fill(place.as_mut_slice(), name.as_mut_slice(), LARGEST) {
            size = sheet.size();
        }
    })?;
    let size = size.min(place.len());
    let bytes = &place[..size];
    let mut seen = 0u32;
    let reading = timed(rt, times, || {
        if let Ok(sheet) = Sheet::read(bytes) {
            seen = seen.wrapping_add(u32::from(sheet.outputs()));
        }
    })?;
    let write_time = writing.as_nanos() / u128::from(times);
    let read_time = reading.as_nanos() / u128::from(times);
    println!(rt;
        "{size} bytes, {seen} outputs seen: written in {write_time} ns, read in {read_time} ns"
    )?;
    Ok(())
}
