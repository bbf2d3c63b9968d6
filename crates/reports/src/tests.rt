// Sheets and their answers.
use crate::answer::answer;
use std::alloc::Global;
use std::process::Abort;
use std::test::Fail;

// A sheet that is not read: the line at fault on standard error, and nothing else.
fn unread(rt: &impl Abort, heap: Global, text: &str, why: &str) -> Result<(), Fail> {
    let answer = answer(heap, text)?;
    assert!(rt; !answer.accepted);
    assert_eq!(rt; answer.out.as_str(), "");
    assert_eq!(rt; answer.err.as_str(), why);
    Ok(())
}

#[test]
fn house_is_accepted(rt: HostRuntime) -> Result<(), Fail> {
    let text =
        "# office\n\ncores  2\ntask 30 2 6 10\n  \nrule deadline\ntask 20 3 6 8\n#task 1 1 1 1\ntask 10 2 4 5";
    let answer = answer(rt.alloc(), text)?;
    assert!(rt; answer.accepted);
    assert_eq!(rt;
        answer.out.as_str(),
        "2 cores, deadline rule\nlevel     C     D     T  total bound\n   10     2     4     5      0     4\n   20     3     6     8      4     6\n   30     2     6    10      7     6\naccepted\n"
    );
    assert_eq!(rt; answer.err.as_str(), "");
    Ok(())
}

#[test]
fn level_30_is_refused(rt: HostRuntime) -> Result<(), Fail> {
    let text = "cores 2\nrule deadline\ntask 10 2 4 5\ntask 20 3 6 8\ntask 30 2 4 10\n";
    let answer = answer(rt.alloc(), text)?;
    assert!(rt; !answer.accepted);
    assert_eq!(rt;
        answer.out.as_str(),
        "2 cores, deadline rule\nlevel     C     D     T  total bound\n   10     2     4     5      0     4\n   20     3     6     8      4     6\nrefused 6: level 30 has no bound\n"
    );
    Ok(())
}

#[test]
fn faults(rt: HostRuntime) -> Result<(), Fail> {
    let heap = rt.alloc();
    unread(&rt, heap, "cores 9", "line 1: cores are 1 to 8\n")?;
    unread(
        &rt,
        heap,
        "cores 2\n\ntask 1 +2 4 5",
        "line 3: not a number\n",
    )?;
    unread(
        &rt,
        heap,
        "rule deadline\ntask 1 2 65536 5",
        "line 2: number too large\n",
    )?;
    unread(
        &rt,
        heap,
        "cores 2\ncores 2",
        "line 2: a second cores line\n",
    )?;
    unread(
        &rt,
        heap,
        "cores 2\ntask 1 2 3",
        "line 2: a word is missing\n",
    )?;
    unread(&rt, heap, "cores 2\n", "line 2: no rule line\n")?;
    unread(&rt, heap, "", "line 1: no cores line\n")
}
