use crate::books::TickerBook;
use crate::queue::Queue;
use crate::rankings::*;
use model::words::Standing;
use rules::Side;

fn bid(number: u32, price: u32) -> Standing {
    Standing {
        number,
        holder: 1,
        price,
        lots: 5,
    }
}

// The second bid is the dearest; of the two others the earlier is first.
#[test]
fn queues(rt: HostRuntime) {
    let mut queue = Queue::empty();
    assert!(rt; queue.put::<Buys>(bid(1, 100)).is_ok());
    assert!(rt; queue.put::<Buys>(bid(2, 110)).is_ok());
    assert!(rt; queue.put::<Buys>(bid(3, 100)).is_ok());
    assert_eq!(rt; queue.best_price(), Some(110));
    assert_eq!(rt; queue.find(1, 3), Some(2));
    queue.take_lots(4);
    assert_eq!(rt; queue.len(), 3);
    queue.take_lots(1);
    assert_eq!(rt; queue.len(), 2);
    assert_eq!(rt; queue.find(1, 1), Some(0));
    assert_eq!(rt; queue.find(1, 2), None);
    assert!(rt; !queue.has_holder(2));
    assert_eq!(rt; TickerBook::blank().best_price(Side::Sell), None);
}
