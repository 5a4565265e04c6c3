//! What is claimed of the order of calls: the function's contract is the theorem.

ghost use Rattle.orders.specs.Claims.{OrderMatters};

/// Three nested fixes in two orders end in tracks that serve different fixes, and show the same board, as any list of which nothing is
/// refused as full does in any order.
pub fn order_matters()
    ensures { OrderMatters }
{}
