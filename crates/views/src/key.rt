// The order by which a vector is searched.
ghost use Rattle.std.specs.Prelude.{◌≡◌};
ghost use Rattle.views.specs.Search.{Order};

use std::cmp::Ordering;

// A key that is sought among elements `V`: `key` is what an element is ordered by, in a total order.
pub trait KeyOrder<V> {
    ghost Key: { Type 0 };

    ghost order: { Order Key };

    ghost key: { V → Key };

    ghost sought: { Self → Key };

    // How an element's key compares with the one sought.
    fn key_compare_with_value(&self, value: &V) -> Ordering
        ensures { result ≡ order.cmp (key value.now) (sought self.now) };
}
