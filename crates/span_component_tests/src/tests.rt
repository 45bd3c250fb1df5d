//! What no clause says: worked values from outside the crates, and each call once.
mod compare;
mod forest;
mod hooks;
mod ids;
mod layers;
mod outlet;
mod recent;
mod seats;
mod slots;
mod stack;
