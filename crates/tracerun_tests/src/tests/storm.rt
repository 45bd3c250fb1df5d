//! That the threads of a storm run at the same time, who is held, and what is written.
mod layer;
mod meeting;
mod shows;
mod storms;
