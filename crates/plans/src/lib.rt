// Checking a whole list of tasks by a counting rule.
#![tactic(auto)]

pub mod plan;

#[cfg(test)]
mod tests {
    use crate::plan::plan;
    use analysis::task::Task;
    use planning::refusal::Refusal;
    use rules::deadline::DeadlineRule;
    use rules::house::house;
    use rules::response::ResponseRule;
    use std::test::Fail;

    // The same tasks with level 30 first and level 10 next.
    fn mixed_house(deadline: u16) -> [Task; 3] {
        let [ten, twenty, thirty] = house(deadline);
        [thirty, ten, twenty]
    }

    #[test]
    fn level_30_needs_deadline_5(rt: HostRuntime) -> Result<(), Fail> {
        let fits = plan(rt.alloc(), &DeadlineRule, 2, &house(5))?;
        assert_eq!(rt; fits.verdict, Ok(()));
        assert_eq!(rt; fits.rows.len(), 3);
        let late = plan(rt.alloc(), &DeadlineRule, 2, &house(4))?;
        assert_eq!(rt; late.verdict, Err(Refusal::NoBound(30)));
        assert_eq!(rt; late.rows.len(), 2);
        Ok(())
    }

    #[test]
    fn response_rule_shows_the_least_windows(rt: HostRuntime) -> Result<(), Fail> {
        let fits = plan(rt.alloc(), &ResponseRule, 2, &house(4))?;
        assert_eq!(rt; fits.verdict, Ok(()));
        let late = plan(rt.alloc(), &ResponseRule, 2, &house(3))?;
        assert_eq!(rt; late.verdict, Err(Refusal::NoBound(30)));
        Ok(())
    }

    #[test]
    fn faulty_task_is_refused_first(rt: HostRuntime) -> Result<(), Fail> {
        let mut tasks = house(1);
        tasks[1].level = 10;
        assert_eq!(rt;
            plan(rt.alloc(), &DeadlineRule, 2, &tasks)?.verdict,
            Err(Refusal::LevelTaken(10))
        );
        tasks[0].deadline = 1;
        assert_eq!(rt;
            plan(rt.alloc(), &DeadlineRule, 2, &tasks)?.verdict,
            Err(Refusal::BadTiming(10))
        );
        Ok(())
    }

    #[test]
    fn mixed_level_30_needs_deadline_5(rt: HostRuntime) -> Result<(), Fail> {
        let fits = plan(rt.alloc(), &DeadlineRule, 2, &mixed_house(5))?;
        assert_eq!(rt; fits.verdict, Ok(()));
        assert_eq!(rt; fits.rows.len(), 3);
        let late = plan(rt.alloc(), &DeadlineRule, 2, &mixed_house(4))?;
        assert_eq!(rt; late.verdict, Err(Refusal::NoBound(30)));
        assert_eq!(rt; late.rows.len(), 2);
        Ok(())
    }

    #[test]
    fn mixed_faulty_task_is_refused_first(rt: HostRuntime) -> Result<(), Fail> {
        let mut tasks = mixed_house(1);
        tasks[2].level = 10;
        assert_eq!(rt;
            plan(rt.alloc(), &DeadlineRule, 2, &tasks)?.verdict,
            Err(Refusal::BadTiming(30))
        );
        tasks[0].deadline = 9;
        assert_eq!(rt;
            plan(rt.alloc(), &DeadlineRule, 2, &tasks)?.verdict,
            Err(Refusal::LevelTaken(10))
        );
        Ok(())
    }
}
