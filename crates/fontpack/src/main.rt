// Puts a glyph's name and a list of kerns into each store, reads them back, and meets a limit; then builds a whole
// font over each.
#![tactic(auto)]

mod job;
mod pack;
mod pack_report;
mod report;

use pack_report::report_pack;
use report::report_on;
use store::doubling::Doubling;
use store::quota::Quota;
use store::still::Still;

fn run(rt: &HostRuntime) -> anyhow::Result<()> {
    let mut small = [0; 64];
    report_on(rt, "Doubling over 64 bytes", Doubling::new(&mut small))?;
    report_on(rt, "Still", Still::new())?;
    let mut wide = [0; 256];
    report_on(
        rt,
        "Quota of 40 over Doubling over 256 bytes",
        Quota::new(Doubling::new(&mut wide), 40),
    )?;
    report_on(
        rt,
        "Quota of 20,000 over Still",
        Quota::new(Still::new(), 20000),
    )?;
    run_packs(rt)
}

fn run_packs(rt: &HostRuntime) -> anyhow::Result<()> {
    let mut wide = [0; 256];
    report_pack(rt, "Doubling over 256 bytes", Doubling::new(&mut wide))?;
    report_pack(rt, "Still", Still::new())?;
    report_pack(rt, "Quota of 100 over Still", Quota::new(Still::new(), 100))
}

fn main(rt: HostRuntime) -> anyhow::Result<()> {
    run(&rt)
}
