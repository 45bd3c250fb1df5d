//! What every registry promises whenever its lock is free, and what every core promises.
mod promises;
mod sent;

pub use promises::{
    a_handles_span_is_open, no_span_is_left_where_none_is_held, the_promise,
    two_handles_have_two_numbers, whenever_the_lock_is_free,
};
pub(crate) use sent::what_was_sent_is_legal;
pub use span_core::laws::{
    a_span_is_open_as_long_as_something_keeps_it, accepted_releases_close_what_nothing_holds,
    closes_are_announced_once, counts_and_calls_have_bounds, each_slot_has_one_open_span,
    empty_where_nothing_is_held, entries_are_counted_once, entries_are_the_workers_inside,
    full_where_each_slot_is_used_up, handles_follow_the_calls, layers_admit_spans_by_their_rules,
    made_spans_are_open_or_closed, new_id_finds_its_span, no_close_is_told_twice,
    no_span_is_held_where_none_is_left, no_span_is_held_where_none_is_open,
    open_spans_are_a_live_forest, open_spans_were_made_and_not_closed, outcome,
    release_closes_what_nothing_holds, releases_leave_no_choice, the_named_span_closes_first,
};
