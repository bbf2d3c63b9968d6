// How the items of a set stand in cells.
ghost use Rattle.std.specs.Prelude.{◌≡◌, ℕ, ◌-◌, ◌<◌, ◌≤◌, List, length, take, Result, MatchResult};
ghost use Rattle.stores.specs.Layouts.{Entered, Found, LayoutLaws, Left};

use queues::order::Order;

/// A way for the items of a set to stand in cells, all of which are in use. The cells hold no item twice.
// Stays: no plainer; `enter` begins with cells that are not good yet, so a type would be undone and made again in each call.
pub trait Layout<T: Order> {
    ghost good: { List T → Type 0 };

    ghost set: { List T → List T };

    ghost place: { T → List T → ℕ → Type 0 };

    /// Looks for the item: where it stands, or else where it may enter.
    fn find(cells: &[T], item: &T) -> Result<usize, usize>
        ensures within { MatchResult result (λ at. at < length cells.now) (λ at. at ≤ length cells.now) }
        ensures found { good cells.now → Found T.Order.before set place item.now cells.now result };

    /// Moves the last item, which is new, to where it belongs; `at` is where it may enter.
    fn enter(cells: &mut [T], at: usize)
        requires { at < length cells.old }
        ensures { Entered T.Order.before good set place at cells.old cells.new };

    /// Removes the item at `at`: the others stand in all cells but the last one then.
    fn leave(cells: &mut [T], at: usize)
        requires { at < length cells.old }
        ensures { Left T.Order.before good set at cells.old (take (length cells.old - 1) cells.new) };

    ghost laws: { LayoutLaws T.Order.before good set };
}
