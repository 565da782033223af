// The limits of _OSC, reset and report. fixtures::three_bridges says whose bridges there are.
#![tactic(auto)]

use fixtures::SoundTable;
use print::Output;
use rules::{BridgeNumber, Holding, SessionNumber};
use std::io;

mod framing;
mod granting;

// What bridge 0 holds.
fn held(t: &SoundTable) -> Holding {
    t.report(SessionNumber(1), BridgeNumber(0))
        .unwrap_or_default()
}

fn lines_to(rt: &impl Print) -> io::Result<()> {
    framing::lines(rt)?;
    granting::lines(rt)
}

// Output gives no error.
pub fn lines() {
    let _ = lines_to(&Output);
}
