// A small house that can be followed by hand.
ghost use Rattle.std.specs.Prelude.{◌≡◌, [], ◌∷◌};
ghost use Rattle.rules.specs.Examples.{Examples, ten, twenty, thirty};

use analysis::task::Task;

/// The tasks of levels 10, 20 and 30, the last with this deadline. The worked examples are about them.
pub fn house(deadline: u16) -> [Task; 3]
    ensures tasks { result ≡ ten ∷ (twenty ∷ (thirty deadline ∷ [])) }
    ensures examples { Examples }
{
    let ten = Task {
        level: 10,
        run: 2,
        deadline: 4,
        gap: 5,
    };
    let twenty = Task {
        level: 20,
        run: 3,
        deadline: 6,
        gap: 8,
    };
    let thirty = Task {
        level: 30,
        run: 2,
        deadline,
        gap: 10,
    };
    [ten, twenty, thirty]
}
