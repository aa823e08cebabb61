// Orders of calls.

// Activities 0 to 5 in turn, again and again.
pub fn upward(order: &mut [u8]) {
    for (k, act) in order.iter_mut().enumerate() {
        *act = (k % 6) as u8;
    }
}

// Activities 5 to 0 in turn, again and again.
pub fn downward(order: &mut [u8]) {
    for (k, act) in order.iter_mut().enumerate() {
        *act = 5 - (k % 6) as u8;
    }
}
