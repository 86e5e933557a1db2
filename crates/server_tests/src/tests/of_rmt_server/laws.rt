//! The laws of a session, each called once.

use drives::{ListStacks, LocalHolds};
use rmt_server::{
    more_seats, one_holder, one_session_view, open_is_held, stacks_trouble, still_at,
    troubled_is_served, troubled_serve, troubles_set, untroubled_end,
};

#[test]
fn a_law_does_nothing(_rt: HostRuntime) {
    one_holder::<ListStacks>();
    open_is_held::<ListStacks>();
    still_at::<LocalHolds, ListStacks>();
    more_seats::<ListStacks>();
    stacks_trouble::<LocalHolds>();
    one_session_view();
    troubled_serve();
    troubled_is_served();
    troubles_set();
    untroubled_end();
}
