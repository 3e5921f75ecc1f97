// Plays a script from standard input, and prints what comes of it.
#![tactic(auto)]

use session::replay::replay;
use std::io::Read;

fn main(rt: HostRuntime) -> anyhow::Result<()> {
    let heap = rt.alloc();
    let mut script = Vec::new(heap);
    rt.stdin().read_to_end(&mut script)?;
    rt.print(replay(heap, script.as_slice())?)?;
    Ok(())
}
