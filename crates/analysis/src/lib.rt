// Tasks, the work they do in a window, and the total of the deadline rule.
#![tactic(auto)]

pub mod case;
pub mod count;
pub mod lawful;
pub mod task;
pub mod work;

#[cfg(test)]
mod tests {
    use crate::case::Case;
    use crate::task::{BoundedTask, Task};
    use crate::work::amount;

    #[test]
    fn amounts_for_run_2_gap_5(rt: HostRuntime) {
        assert_eq!(rt; amount(2, 5, 0), 0);
        assert_eq!(rt; amount(2, 5, 1), 1);
        assert_eq!(rt; amount(2, 5, 4), 2);
        assert_eq!(rt; amount(2, 5, 5), 2);
        assert_eq!(rt; amount(2, 5, 6), 3);
        assert_eq!(rt; amount(2, 5, 8), 4);
    }

    #[test]
    fn total_of_level_30_is_7(rt: HostRuntime) {
        let ten = Task {
            level: 10,
            run: 2,
            deadline: 4,
            gap: 5,
        };
        let twenty = Task {
            level: 20,
            run: 3,
            deadline: 6,
            gap: 8,
        };
        let thirty = Task {
            level: 30,
            run: 2,
            deadline: 6,
            gap: 10,
        };
        let above = [
            BoundedTask {
                task: ten,
                bound: 4,
            },
            BoundedTask {
                task: twenty,
                bound: 6,
            },
        ];
        let case = Case {
            task: &thirty,
            above: &above,
            cores: 2,
        };
        assert_eq!(rt; case.total(6), 7);
        let not_above = Case { task: &ten, ..case };
        assert_eq!(rt; not_above.total(6), u32::MAX, "the others are not above");
    }
}
