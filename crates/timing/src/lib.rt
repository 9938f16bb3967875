// One task of a core as the dispatcher keeps it: its period and budget, its age, the ticks left of its job, its number and stroke length.
// The definitions in specs/ and the theorems in proofs/ are about lists of these, in priority order.
#![tactic(auto)]

#[repr(C)]
#[derive(Clone, Copy)]
pub struct Task {
    pub period: u16,
    pub budget: u16,
    pub age: u16,
    pub left: u16,
    pub number: u8,
    pub stroke: u8,
}
