// Checking a whole list of tasks, and the bounds that a sorted set shows.
#![tactic(auto)]

pub mod admission;
pub mod plan;
pub mod refusal;
pub mod verdict;

#[cfg(test)]
mod tests {
    use crate::plan::judge;
    use crate::refusal::Refusal;
    use analysis::task::{BoundedTask, Task};
    use std::test::Fail;

    // Three tasks with bounds below their deadlines, the last with this bound.
    fn house(bound: u16) -> [BoundedTask; 3] {
        [
            BoundedTask {
                task: Task {
                    level: 10,
                    run: 2,
                    deadline: 4,
                    gap: 5,
                },
                bound: 2,
            },
            BoundedTask {
                task: Task {
                    level: 20,
                    run: 3,
                    deadline: 6,
                    gap: 8,
                },
                bound: 3,
            },
            BoundedTask {
                task: Task {
                    level: 30,
                    run: 2,
                    deadline: 6,
                    gap: 10,
                },
                bound,
            },
        ]
    }

    #[test]
    fn level_30_passes_at_bound_4(rt: HostRuntime) -> Result<(), Fail> {
        let fits = judge(rt.alloc(), 2, &house(4))?;
        assert_eq!(rt; fits.verdict, Ok(()));
        assert_eq!(rt; fits.rows.len(), 3);
        let late = judge(rt.alloc(), 2, &house(3))?;
        assert_eq!(rt; late.verdict, Err(Refusal::NoBound(30)));
        assert_eq!(rt; late.rows.len(), 2);
        Ok(())
    }
}
