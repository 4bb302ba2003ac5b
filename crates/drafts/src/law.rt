ghost use Rattle.drafts.specs.OrderLaws.{NoneStandsTwice, AwaitedStandBefore, OrdersAreTheSame};

/// In an order of the rails none stands twice, and each stands behind those that it waits for; no
/// two orders are different.
pub fn order_is_unique()
    ensures once { NoneStandsTwice }
    ensures awaited { AwaitedStandBefore }
    ensures unique { OrdersAreTheSame }
{}
