// Sets of needs of at most four jobs, as numbers: which have no circle, the job file of each, and the fewest slots of each (document 02, request 14).
//
// Bit giver * jobs + taker of a number stands for a need: this is the need's place. Jobs are counted from 0.
#![tactic(auto)]

pub mod file;
pub mod numbers;
pub mod starts;
