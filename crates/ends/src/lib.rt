// What both ends of the link are made of. The rules of each end are the definitions in specs/.
#![tactic(auto)]

pub mod collect;
pub mod counts;
pub mod ear;
pub mod kept;
pub mod name;
pub mod refusal;
