// How many activities, clocks and accumulators were made.
#[derive(Clone, Copy)]
pub struct Made {
    pub activities: u8,
    pub clocks: u8,
    pub accumulators: u8,
}
