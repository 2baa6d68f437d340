// Slot totals and the closing figures.
#![tactic(auto)]

pub mod closing;
pub mod totals;

// The closing figures: total in Wh, the others in kW.
#[derive(Clone, Copy, Default)]
pub struct Figures {
    pub total: i64,
    pub settled: i64,
    pub shortfall: u64,
    pub expected: u64,
    pub kept: u64,
    pub surplus: u64,
    pub points: u32,
    pub bid: bool,
}
