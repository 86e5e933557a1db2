//! The laws are functions, and can be called.

use dump_client::{
    after_the_count, fed_in_pieces, granted_replies, lawful_positions, resumes, same_run,
    sent_in_order, wanted_replies,
};

#[test]
fn laws_are_called() {
    wanted_replies();
    granted_replies();
    lawful_positions();
    sent_in_order();
    after_the_count();
    resumes();
    fed_in_pieces();
    same_run();
}
