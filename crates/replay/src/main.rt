// Reads a script of calls on a builder, one to a line, and prints an answer to each.
#![tactic(auto)]

mod answer;
mod call;
mod fault;
mod script;
mod session;
mod value;
mod valued;
mod words;

use answer::Answers;
use script::Script;
use session::Session;

fn run(rt: &HostRuntime) -> anyhow::Result<()> {
    let script = Script::new(rt.stdin(), rt.alloc())?;
    let answers = Answers::new(rt.stdout(), rt.alloc())?;
    Session::new(script, answers, rt.alloc()).replay()?;
    Ok(())
}

fn main(rt: HostRuntime) -> anyhow::Result<()> {
    run(&rt)
}
