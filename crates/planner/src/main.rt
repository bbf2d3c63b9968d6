// The office planner: checks the task set of a sheet on standard input by the published deadline test.
#![tactic(auto)]

use reports::answer::answer;
use reports::reply::Answer;
use std::io::Read;
use std::process::ExitCode;

// Standard input, whole.
fn input(rt: &HostRuntime) -> anyhow::Result<String> {
    let heap = rt.alloc();
    let mut bytes = Vec::new(heap);
    rt.stdin().read_to_end(&mut bytes)?;
    Ok(String::from_utf8_lossy(heap, bytes.as_slice())?)
}

// Writes the answer, and says whether the task set is accepted.
fn run(rt: &HostRuntime) -> anyhow::Result<bool> {
    let text = input(rt)?;
    let Answer { out, err, accepted } = answer(rt.alloc(), text.as_str())?;
    rt.print(out)?;
    rt.eprint(err)?;
    Ok(accepted)
}

fn main(rt: HostRuntime) -> ExitCode {
    match run(&rt) {
        Ok(true) => ExitCode::SUCCESS,
        Ok(false) => ExitCode::FAILURE,
        Err(error) => {
            let _ = eprintln!(rt; "planner: {error}");
            ExitCode::FAILURE
        }
    }
}
