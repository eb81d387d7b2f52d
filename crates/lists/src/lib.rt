// Lists of masks in lent slots: masks are stored as they are found, and put in rising order.
#![tactic(auto, using(crate::proofs::LongLaws::masks_long))]

pub mod place;
pub mod sort;
